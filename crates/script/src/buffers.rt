// What is lent to the calls, and the lists of an upload.
ghost use Rattle.std.specs.Prelude.{◌≡◌, ◌≤◌, length, min, take, OnErr};

use crate::command::{Command, Unknown};
use crate::digest::Crc;
use crate::part;
use crate::part::Part;
use sample::Lent;

// The samples of a trace, or those of an upload.
#[derive(Default, Clone, Drop)]
pub struct Samples {
    pub across: Part<i16>,
    pub up: Part<i16>,
    pub marks: Part<u8>,
}

impl Samples {
    // Lent to a call: at most 320 of each.
    pub fn lent(&self) -> Lent<'_>
        ensures values { (result.across.now ≡ self.now.across.items) × (result.up.now ≡ self.now.up.items) × (result.marks.now ≡ self.now.marks.items) }
        ensures lengths { (length result.across.now ≤ 320) × (length result.up.now ≤ 320) × (length result.marks.now ≤ 320) }
    {
        Lent {
            across: self.across.as_slice(),
            up: self.up.as_slice(),
            marks: self.marks.as_slice(),
        }
    }

    // list w v: append a value to the list w = 0 across, 1 up, 2 marks.
    pub fn list(&mut self, command: &Command) -> Result<(), Unknown> {
        let v = command.word(2);
        match command.word(1) {
            0 => part::append(&mut self.across, v),
            1 => part::append(&mut self.up, v),
            2 => part::append(&mut self.marks, v),
            _ => Err(Unknown),
        }
    }
}

// The buffers that are lent to a call. The cells are the first of a table that the program keeps and hands to each method.
#[derive(Default, Clone, Drop)]
pub struct Buffers {
    pub samples: Samples,
    pub ranks: Part<u8>,
    cells: usize,
}

impl Buffers {
    // bufs LX LY LT LR LM: lend so much of each buffer, and fill it.
    pub fn bufs(&mut self, command: &Command, table: &mut [u16]) -> Result<(), Unknown>
        ensures { OnErr result (table.new ≡ table.old) }
    {
        let across = part::filled(command.number(1)?, 7919, 13)?;
        let up = part::filled(command.number(2)?, 104729, 29)?;
        let n: usize = command.number(3)?;
        let ranks = part::filled(command.number(4)?, 31, 5)?;
        let marks = part::filled(command.number(5)?, 17, 2)?;
        if n > table.len() {
            return Err(Unknown);
        }
        part::fill(&mut table[..n], 40503, 7);
        *self = Buffers {
            samples: Samples { across, up, marks },
            ranks,
            cells: n,
        };
        Ok(())
    }

    // poke w p v: put a value at place p of across (w = 0), up (1), cells (2), ranks (3) or marks (4).
    pub fn poke(&mut self, command: &Command, table: &mut [u16]) -> Result<(), Unknown>
        ensures { OnErr result (table.new ≡ table.old) }
    {
        let p = command.number(2)?;
        let v = command.word(3);
        match command.word(1) {
            0 => part::poke(self.samples.across.as_mut_slice(), p, v),
            1 => part::poke(self.samples.up.as_mut_slice(), p, v),
            2 => {
                let n = self.lent_of(table);
                part::poke(&mut table[..n], p, v)
            }
            3 => part::poke(self.ranks.as_mut_slice(), p, v),
            4 => part::poke(self.samples.marks.as_mut_slice(), p, v),
            _ => Err(Unknown),
        }
    }

    // How many cells of the table are lent.
    fn lent_of(&self, table: &[u16]) -> usize
        ensures { result ≡ min self.now.cells (length table.now) }
    {
        self.cells.min(table.len())
    }

    // The cells of the table that are lent.
    pub fn cells<'a>(&self, table: &'a [u16]) -> &'a [u16]
        ensures { result.now ≡ take (min self.now.cells (length table.now)) table.now }
    {
        &table[..self.lent_of(table)]
    }

    // The same, to be written.
    pub fn cells_mut<'a>(&self, table: &'a mut [u16]) -> &'a mut [u16]
        ensures { result.now ≡ take (min self.now.cells (length table.old)) table.old }
    {
        let n = self.lent_of(table);
        &mut table[..n]
    }

    // The digest of across, up, cells, ranks and marks.
    pub fn digest(&self, steps: &[u32; 256], table: &[u16]) -> u32 {
        let samples = &self.samples;
        Crc::new(steps)
            .values(samples.across.as_slice())
            .values(samples.up.as_slice())
            .values(self.cells(table))
            .values(self.ranks.as_slice())
            .values(samples.marks.as_slice())
            .ended()
    }
}
