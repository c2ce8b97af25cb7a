// cases: the requirements' hand-checked cases, run through the public calls and printed one to a line.
#![tactic(auto)]

ghost use Rattle.std.specs.Prelude.{◌≤◌, length};

use geometry::Verdict;
use refusal::{Outcome, Refusal};
use sample::{Lent, Sample};
use script::page::Page;
use script::say;
use std::io::Write;
use std::{fmt, io};
use trace::{Levels, Trace};

// The capacity of a case's trace.
const CAPACITY: usize = 5;

// The requirements' day of five samples, and its tolerances.
const DAY: Lent<'static> = Lent {
    across: &[0, 10, 20, 30, 40],
    up: &[0, 1, 0, 3, 0],
    marks: &[0; CAPACITY],
};

const TOLERANCES: [u32; 3] = [1, 4, 16];

// What the calls of a case gave: whether the stretch from 0 to 2 is permitted at level 1, the levels, and the ranks and the
// table then.
#[derive(Clone, Copy)]
struct Found {
    asked: Result<Verdict, Refusal>,
    levels: Levels,
    ranks: [u8; CAPACITY],
    table: [u16; 400],
}

// An outcome as it is printed: taken, or refused with the number.
#[derive(Clone, Copy)]
struct Told(Outcome);

impl fmt::Display for Told {
    fn fmt<W: fmt::Write>(&self, f: &mut fmt::Formatter<W>) -> fmt::Result {
        match self.0 {
            Ok(()) => write!(f, "taken"),
            Err(why) => write!(f, "refused {}", why.number()),
        }
    }
}

// The tolerances of all levels, with those of the first.
fn sixteen(first: &[u32]) -> [u32; 16]
    requires { length first.now ≤ 16 }
{
    let mut tolerances = [0; 16];
    tolerances[..first.len()].copy_from_slice(first);
    tolerances
}

// Upload samples to an empty trace of so many levels, ask and read.
fn find(levels: usize, tolerances: &[u32], samples: Lent<'_>) -> Found
    requires { length tolerances.now ≤ 16 }
{
    let mut xs = [0; CAPACITY];
    let mut ys = [0; CAPACITY];
    let mut marks = [0; CAPACITY];
    let mut table = [0; 400];
    let mut ranks = [0; CAPACITY];
    let started = Trace::start(levels, CAPACITY, sixteen(tolerances));
    let empty = started.trace;
    let uploaded = empty.upload(&mut xs, &mut ys, &mut marks, &mut table, samples);
    let trace = uploaded.trace;
    let held = Lent {
        across: &xs,
        up: &ys,
        marks: &marks,
    };
    let asked = trace.ask(held, 1, 0, 2);
    let levels = trace.read(held, &table, &mut ranks);
    Found {
        asked,
        levels,
        ranks,
        table,
    }
}

// A stretch of two samples past a third, at a tolerance: permitted, or not.
fn past<W: Write>(
    out: &mut W,
    a: (i16, i16),
    b: (i16, i16),
    p: (i16, i16),
    e: u32,
) -> io::Result<()> {
    let found = find(
        1,
        &[e],
        Lent {
            across: &[a.0, p.0, b.0],
            up: &[a.1, p.1, b.1],
            marks: &[0; 3],
        },
    );
    write!(out, "{a:?} to {b:?} past {p:?} at {e}: ")?;
    match found.asked {
        Ok(Verdict::Yes) => write!(out, "yes")?,
        Ok(Verdict::No(spoiler)) => write!(out, "no, sample {spoiler}")?,
        Err(why) => write!(out, "{}", Told(Err(why)))?,
    }
    say::end(out)
}

// The m levels of samples: their ranks and the total of segments.
fn levels<W: Write>(out: &mut W, m: usize, tolerances: &[u32], samples: Lent<'_>) -> io::Result<()>
    requires { length tolerances.now ≤ 16 }
{
    let found = find(m, tolerances, samples);
    let Levels { outcome, total, .. } = found.levels;
    if outcome.is_err() {
        write!(out, "{}", Told(outcome))?;
    } else {
        write!(out, "ranks")?;
        for rank in found.ranks.iter().take(samples.across.len()) {
            write!(out, " {rank}")?;
        }
        write!(out, ", total {total}")?;
    }
    say::end(out)
}

// The costs of the stretch of all five samples.
fn costs<W: Write>(out: &mut W) -> io::Result<()> {
    let found = find(TOLERANCES.len(), &TOLERANCES, DAY);
    let table = found.table;
    for level in [2, 3, 1] {
        let cost = table[(level - 1) * CAPACITY * CAPACITY + CAPACITY - 1];
        write!(out, "five samples, cost ({level}, 0, 4): {cost}")?;
        say::end(out)?;
    }
    Ok(())
}

// A start of a level for each tolerance.
fn starting<W: Write>(out: &mut W, capacity: usize, tolerances: &[u32]) -> io::Result<()>
    requires { length tolerances.now ≤ 16 }
{
    let started = Trace::start(tolerances.len(), capacity, sixteen(tolerances));
    write!(out, "{}", Told(started.outcome))?;
    say::end(out)
}

// A first sample.
fn adding<W: Write>(out: &mut W, across: i16, up: i16) -> io::Result<()> {
    let started = Trace::start(1, 2, sixteen(&[1]));
    let empty = started.trace;
    let sample = Sample {
        across,
        up,
        mark: 0,
    };
    let added = empty.put(
        &mut [0; 2],
        &mut [0; 2],
        &mut [0; 2],
        &mut [0; 4],
        0,
        sample,
    );
    write!(out, "sample ({across}, {up}): {}", Told(added.outcome))?;
    say::end(out)
}

// Counters 500, 900, 120, 200.
fn pauses<W: Write>(out: &mut W) -> io::Result<()> {
    let file = b"\0\0\0\0\xF4\x01\0\0\0\0\0\0\0\0\0\0\
        \0\0\0\0\x84\x03\0\0\0\0\0\0\0\0\0\0\
        \0\0\0\0\x78\0\0\0\0\0\0\0\0\0\0\0\
        \0\0\0\0\xC8\0\0\0\0\0\0\0\0\0\0\0";
    let line = pause::pause_line(file);
    write!(out, "counters 500, 900, 120, 200: pause {}", line.sum)?;
    say::end(out)
}

// A record of across 10, up 1, pause 900.
fn decoding<W: Write>(out: &mut W) -> io::Result<()> {
    let d = record::decode(b"\x0A\0\x01\0\x84\x03\0\0\0\0\0\0\0\0\0\0");
    write!(out, "record 0A 00 01 00 84 03 00 00: ")?;
    write!(out, "across {}, up {}, pause {}", d.across, d.up, d.pause)?;
    say::end(out)
}

fn stretches<W: Write>(out: &mut W) -> io::Result<()> {
    past(out, (0, 0), (10, 0), (13, 4), 5)?;
    past(out, (0, 0), (10, 0), (13, 4), 4)?;
    past(out, (0, 0), (10, 0), (-3, 4), 5)?;
    past(out, (0, 0), (10, 0), (-3, 4), 4)?;
    past(out, (0, 0), (0, 0), (3, 4), 5)?;
    past(out, (0, 0), (0, 0), (3, 4), 4)?;
    past(
        out,
        (-16384, -16384),
        (16384, 16384),
        (16384, -16384),
        23171,
    )?;
    past(
        out,
        (-16384, -16384),
        (16384, 16384),
        (16384, -16384),
        23170,
    )?;
    past(out, (0, 0), (20, 2), (10, 2), 1)?;
    past(out, (10, 2), (30, 0), (20, 2), 1)
}

fn families<W: Write>(out: &mut W) -> io::Result<()> {
    write!(out, "four samples, one level: ")?;
    levels(
        out,
        1,
        &[1],
        Lent {
            across: &[0, 10, 20, 30],
            up: &[0, 2, 2, 0],
            marks: &[0; 4],
        },
    )?;
    write!(out, "four samples, two levels: ")?;
    levels(
        out,
        2,
        &[1, 10],
        Lent {
            across: &[0, 10, 20, 20],
            up: &[0, 1, 0, 20],
            marks: &[0; 4],
        },
    )?;
    write!(out, "five samples, three levels: ")?;
    levels(out, TOLERANCES.len(), &TOLERANCES, DAY)?;
    write!(out, "a restart before the third, three levels: ")?;
    let restarted = Lent {
        marks: &[0, 0, 1, 0, 0],
        ..DAY
    };
    levels(out, TOLERANCES.len(), &TOLERANCES, restarted)
}

// The first n samples of the day at m levels, with tolerances 1, 2, .., 16: those past m are never read.
fn few<W: Write>(out: &mut W, m: usize, n: usize) -> io::Result<()>
    requires { n ≤ 5 }
{
    levels(
        out,
        m,
        &[1, 2, 3, 4, 5, 6, 7, 8, 9, 10, 11, 12, 13, 14, 15, 16],
        Lent {
            across: &DAY.across[..n],
            up: &DAY.up[..n],
            marks: &DAY.marks[..n],
        },
    )
}

fn short_families<W: Write>(out: &mut W) -> io::Result<()> {
    write!(out, "two samples, one level: ")?;
    few(out, 1, 2)?;
    write!(out, "two samples, three levels: ")?;
    few(out, 3, 2)?;
    write!(out, "two samples, sixteen levels: ")?;
    few(out, 16, 2)?;
    write!(out, "one sample, one level: ")?;
    few(out, 1, 1)
}

fn ranges<W: Write>(out: &mut W) -> io::Result<()> {
    write!(out, "tolerances 4, 4: ")?;
    starting(out, 2, &[4, 4])?;
    for tolerance in [0, 32768, 32769] {
        write!(out, "tolerance {tolerance}: ")?;
        starting(out, 2, &[tolerance])?;
    }
    for capacity in [256, 257] {
        write!(out, "capacity {capacity}: ")?;
        starting(out, capacity, &[1])?;
    }
    adding(out, 16384, 0)?;
    adding(out, 16385, 0)
}

fn main(rt: HostRuntime) -> io::Result<()> {
    let mut page = Page::new(rt.stdout());
    stretches(&mut page)?;
    families(&mut page)?;
    short_families(&mut page)?;
    costs(&mut page)?;
    pauses(&mut page)?;
    ranges(&mut page)?;
    decoding(&mut page)
}
