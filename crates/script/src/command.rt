// A command: 80 bytes, twenty words of 32 bits, low byte first. Word 0 is the operation, the others are nineteen signed numbers.
ghost use Rattle.std.specs.Prelude.{◌≡◌, ◌<◌, length};

use crate::say;
use sample::Sample;
use std::io;
use std::io::{Read, Write};
use std::num::TryFromIntError;

// The bytes of a command.
pub const LENGTH: usize = 80;

#[derive(Clone, Copy)]
pub struct Command {
    bytes: [u8; LENGTH],
}

// Of a command that is none: its operation is unknown, a number is none that the operation can take, there is no such place, or
// there is no room.
#[derive(Clone, Copy)]
pub struct Unknown;

impl From<TryFromIntError> for Unknown {
    fn from(_e: TryFromIntError) -> Unknown {
        Unknown
    }
}

// What a command does.
#[derive(Clone, Copy)]
pub enum Operation {
    Bufs,
    Setup,
    Poke,
    Start,
    Ask,
    Read,
    Decode,
    Put,
    List,
    Empty,
    Upload,
}

impl TryFrom<i32> for Operation {
    type Error = Unknown;

    fn try_from(word: i32) -> Result<Operation, Unknown> {
        match word {
            0 => Ok(Operation::Bufs),
            1 => Ok(Operation::Setup),
            2 => Ok(Operation::Poke),
            3 => Ok(Operation::Start),
            6 => Ok(Operation::Ask),
            7 => Ok(Operation::Read),
            8 => Ok(Operation::Decode),
            9 => Ok(Operation::Put),
            10 => Ok(Operation::List),
            11 => Ok(Operation::Empty),
            12 => Ok(Operation::Upload),
            _ => Err(Unknown),
        }
    }
}

impl Command {
    // The next of the input, None at its end. A part of one has the line of a command that is none.
    pub fn read<R: Read, W: Write>(input: &mut R, out: &mut W) -> io::Result<Option<Command>> {
        let mut bytes = [0u8; LENGTH];
        match input::read_full(input, &mut bytes) {
            LENGTH => Ok(Some(Command { bytes })),
            0 => Ok(None),
            _ => {
                say::unknown(out)?;
                Ok(None)
            }
        }
    }

    pub fn operation(&self) -> Result<Operation, Unknown> {
        Operation::try_from(self.word(0))
    }

    // The record of a decode: the 16 bytes after the operation.
    pub fn record(&self) -> &[u8]
        ensures { 16 ≡ length result.now }
    {
        &self.bytes[4..20]
    }

    // A word as it is.
    pub fn word(&self, k: usize) -> i32
        requires { k < 20 }
    {
        words::long_at(&self.bytes, 4 * k).cast_signed()
    }

    // A word as a number of a type that can hold it.
    pub fn number<T: TryFrom<i32, Error = TryFromIntError>>(&self, k: usize) -> Result<T, Unknown>
        requires { k < 20 }
    {
        Ok(T::try_from(self.word(k))?)
    }

    // Words k to k + 2 as a sample.
    pub fn sample_from(&self, k: usize) -> Result<Sample, Unknown>
        requires { k < 18 }
    {
        Ok(Sample {
            across: self.number(k)?,
            up: self.number(k + 1)?,
            mark: self.number(k + 2)?,
        })
    }

    // Sixteen tolerances from word k on.
    pub fn tolerances_from(&self, k: usize) -> Result<[u32; 16], Unknown>
        requires { k < 5 }
    {
        let mut tolerances = [0; 16];
        for l in 0..16 {
            tolerances[l] = self.number(k + l)?;
        }
        Ok(tolerances)
    }
}
