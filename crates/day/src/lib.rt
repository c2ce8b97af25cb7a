// The text of a day: its samples with their ranks, the segments and the pause line, or the number of its refusal.
#![tactic(auto)]

ghost use Rattle.std.specs.Prelude.{◌≡◌, MatchResult};
ghost use Rattle.refusal.specs.Number.{number};
ghost use Rattle.sample.specs.Samples.{samples};
ghost use Rattle.pause.specs.Pause.{pause_line_of};
ghost use Rattle.day.specs.Day.{DayNumber, Reported};
ghost use Rattle.day.specs.Fill.{Lent as HasPlaces, AddsAll};

use refusal::Refusal;
use sample::Lent;
use trace::Trace;

// The day's setup; `lines` has the count of its levels.
pub const CAPACITY: usize = 104;

const TOLERANCES: [u32; 16] = [1, 4, 16, 0, 0, 0, 0, 0, 0, 0, 0, 0, 0, 0, 0, 0];

pub const CELLS: usize = 32768;

// Room for a day's text, and for as much of a file as tells that it is too long.
pub const TEXT_ROOM: usize = 4096;

pub const FILE_ROOM: usize = 65537;

// The trace of the records of the file, added in order, or the first refusal.
fn add_all(
    xs: &mut [i16],
    ys: &mut [i16],
    marks: &mut [u8],
    table: &mut [u16],
    file: &[u8],
) -> Result<Trace, Refusal>
    requires { ((pause_line_of file.now).outcome ≡ Ok tt) × HasPlaces (samples xs.old ys.old marks.old) table.old }
    ensures { AddsAll file.now result (samples xs.new ys.new marks.new) table.new }
{
    let mut trace = Trace::start(lines::LEVELS, CAPACITY, TOLERANCES).trace;
    for i in 0..file.len() / record::RECORD_BYTES {
        let added = trace.put(xs, ys, marks, table, i, pause::sample_of(file, i));
        added.outcome?;
        trace = added.trace;
    }
    Ok(trace)
}

// The text of a day, and how many bytes of it stand in out; or its refusal, and nothing is written.
#[tactic(auto, using(crate::proofs::Reported::number_file, crate::proofs::Reported::number_full))]
fn day_text(file: &[u8], out: &mut [u8]) -> Result<usize, Refusal>
    ensures { MatchResult result (λ end. Reported file.now out.old out.new end) (λ why. DayNumber file.now (number why) × (out.new ≡ out.old)) }
{
    let line = pause::pause_line(file);
    line.outcome?;
    let mut xs = [0i16; CAPACITY];
    let mut ys = [0i16; CAPACITY];
    let mut marks = [0u8; CAPACITY];
    let mut table = [0u16; CELLS];
    let mut ranks = [0u8; CAPACITY];
    let trace = add_all(&mut xs, &mut ys, &mut marks, &mut table, file)?;
    let samples = Lent {
        across: &xs,
        up: &ys,
        marks: &marks,
    };
    let levels = trace.read(samples, &table, &mut ranks);
    levels.outcome?;
    Ok(lines::levels_text(
        out,
        trace.held,
        &xs,
        &ys,
        &ranks,
        levels.total,
        levels.segments,
        line.sum,
    ))
}

// The text of the day whose records the file has: how many bytes of it stand in out.
pub fn report(file: &[u8], out: &mut [u8]) -> usize
    ensures reported { Reported file.now out.old out.new result }
{
    match day_text(file, out) {
        Ok(end) => end,
        Err(why) => lines::refused_line(out, Err(why)),
    }
}
