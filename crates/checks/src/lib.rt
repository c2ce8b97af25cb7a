// The refusal rows of the calls on a trace, and their loops: for every crate that refuses as put, ask or read does.
#![tactic(auto)]

ghost use Rattle.std.specs.Prelude.{◌≡◌, true, ◌&&◌, ◌*◌, ◌≤◌, length};
ghost use Rattle.sample.specs.Samples.{lent};
ghost use Rattle.checks.specs.Numbers.{LentSamples, LentTable};
ghost use Rattle.checks.specs.Rows.{lengths, samples_lent, table_lent, lent_outcome, stored_ok, stored_outcome, stretch_ok, lists_ok, samples_outcome, trace_outcome, place_outcome, sample_outcome, upload_outcome, ask_outcome, read_outcome};

use refusal::{Outcome, Refusal, unless};
use sample::{Lent, Sample};
use sizes::{Sizes, setup_outcome};
use table::Table;

// How long three buffers of samples are: those lent, or the lists of an upload.
#[derive(Clone, Copy)]
pub struct Lengths {
    pub across: usize,
    pub up: usize,
    pub marks: usize,
}

// Those of the samples that are lent.
pub fn lengths_of(samples: Lent<'_>) -> Lengths
    ensures { result ≡ lengths (lent samples.entry) }
{
    Lengths {
        across: samples.across.len(),
        up: samples.up.len(),
        marks: samples.marks.len(),
    }
}

// ---- the tests
// Whether buffers of samples so long have N places each.
fn samples_lent(cap: usize, long: Lengths) -> bool
    ensures { result ≡ samples_lent cap long }
{
    cap <= long.across && cap <= long.up && cap <= long.marks
}

// Whether a table so long has m · N · N cells; by quotients, so that no size is too large to be tested.
#[tactic(auto, using(crate::proofs::Checks::quotient))]
fn table_lent(s: Sizes, cells: usize) -> bool
    ensures { result ≡ table_lent s cells }
{
    let cap = s.capacity;
    cap == 0 || s.levels <= cells / cap / cap
}

// Whether both are long enough.
fn trace_lent(s: Sizes, long: Lengths, cells: usize) -> bool
    ensures { result ≡ (samples_lent s.capacity long && table_lent s cells) }
{
    samples_lent(s.capacity, long) && table_lent(s, cells)
}

// Whether the samples held are valid, and the cells of their stretches may hold what they hold.
#[tactic(auto, unfolding(crate::specs::Rows::stored_ok))]
fn stored_ok(s: Sizes, samples: Lent<'_>, table: &[u16]) -> bool
    requires held_in_bounds { (s.held ≤ length samples.across.now) × (s.held ≤ length samples.up.now) × (s.held ≤ length samples.marks.now) }
    requires levels_bound { (s.levels ≤ 16) × (s.capacity ≤ 256) × (s.levels * (s.capacity * s.capacity) ≤ length table.now) × (s.held ≤ s.capacity) }
    ensures { result ≡ stored_ok s (lent samples.entry) table.now }
{
    let costs = Table {
        cells: table,
        capacity: s.capacity,
    };
    samples.all_ok(s.held) && costs.all_ok(s.held, s.levels)
}

// Whether there is such a stretch, and such a level.
#[tactic(auto, unfolding(crate::specs::Rows::stretch_ok))]
fn stretch_ok(s: Sizes, k: usize, i: usize, j: usize) -> bool
    ensures { result ≡ stretch_ok s k i j }
{
    i < j && j < s.held && (sizes::LEVELS_LEAST..=s.levels).contains(&k)
}

// Whether the lists of an upload have one length.
fn lists_ok(lists: Lengths) -> bool
    ensures { result ≡ lists_ok lists }
{
    lists.across == lists.up && lists.across == lists.marks
}

// ---- the rows
// Refusals 1 to 4, by whether all that is lent is long enough.
#[tactic(auto, unfolding(crate::specs::Rows::lent_outcome))]
pub fn lent_outcome(s: Sizes, lent: bool) -> Outcome
    ensures { result ≡ lent_outcome s lent }
{
    setup_outcome(s.levels, s.capacity, s.tolerances)?;
    unless(lent, Refusal::Buffer)?;
    unless(s.held <= s.capacity, Refusal::Held)
}

// Refusals 1 to 5 of a call that is lent the samples alone.
#[tactic(auto, unfolding(crate::specs::Rows::samples_outcome))]
pub fn samples_outcome(s: Sizes, samples: Lent<'_>) -> Outcome
    ensures { result ≡ samples_outcome s (lent samples.entry) }
{
    lent_outcome(s, samples_lent(s.capacity, lengths_of(samples)))?;
    unless(samples.all_ok(s.held), Refusal::Stored)
}

// Of one that is lent a table too, by whether all that it is lent is long enough; if so, the samples and the table are.
#[tactic(auto, unfolding(crate::specs::Rows::stored_outcome))]
fn stored_outcome(s: Sizes, long: bool, samples: Lent<'_>, table: &[u16]) -> Outcome
    requires { long ≡ true → LentSamples s (lent samples) × LentTable s table.now }
    ensures { result ≡ stored_outcome s long (lent samples.entry) table.now }
{
    lent_outcome(s, long)?;
    unless(stored_ok(s, samples, table), Refusal::Stored)
}

// Of one that is lent no more.
#[tactic(auto, unfolding(crate::specs::Rows::trace_outcome))]
pub fn trace_outcome(s: Sizes, samples: Lent<'_>, table: &[u16]) -> Outcome
    ensures { result ≡ trace_outcome s (lent samples.entry) table.now }
{
    let long = trace_lent(s, lengths_of(samples), table.len());
    stored_outcome(s, long, samples, table)
}

// Refusals 7 and 8 of a place: the next one needs room, and there is none past it.
#[tactic(auto, unfolding(crate::specs::Rows::place_outcome))]
fn place_outcome(s: Sizes, v: usize) -> Outcome
    ensures { result ≡ place_outcome s v }
{
    if v == s.held {
        unless(s.held < s.capacity, Refusal::Full)
    } else {
        unless(v < s.held, Refusal::Missing)
    }
}

// Refusals 6 to 8 of a sample at place v.
#[tactic(auto, unfolding(crate::specs::Rows::sample_outcome))]
pub fn sample_outcome(s: Sizes, v: usize, sample: Sample) -> Outcome
    ensures { result ≡ sample_outcome s v sample }
{
    unless(sample::sample_ok(sample), Refusal::Coordinate)?;
    place_outcome(s, v)
}

// What refuses an upload before its first sample, by the lengths of its lists: 3 where they differ, and 1 to 5 unless they are empty.
#[tactic(auto, unfolding(crate::specs::Rows::upload_outcome))]
pub fn upload_outcome(s: Sizes, samples: Lent<'_>, table: &[u16], lists: Lengths) -> Outcome
    ensures { result ≡ upload_outcome s (lent samples.entry) table.now lists }
{
    unless(lists_ok(lists), Refusal::Buffer)?;
    if lists.across == 0 {
        return Ok(());
    }
    trace_outcome(s, samples, table)
}

// Refusals 1 to 5, without a table, and 8.
#[tactic(auto, unfolding(crate::specs::Rows::ask_outcome))]
pub fn ask_outcome(s: Sizes, samples: Lent<'_>, k: usize, i: usize, j: usize) -> Outcome
    ensures { result ≡ ask_outcome s (lent samples.entry) k i j }
{
    samples_outcome(s, samples)?;
    unless(stretch_ok(s, k, i, j), Refusal::Missing)
}

// Refusals 1 to 5, of the ranks too, and 9.
#[tactic(auto, unfolding(crate::specs::Rows::read_outcome))]
pub fn read_outcome(s: Sizes, samples: Lent<'_>, table: &[u16], bytes: usize) -> Outcome
    ensures { result ≡ read_outcome s (lent samples.entry) table.now bytes }
{
    let long = trace_lent(s, lengths_of(samples), table.len()) && s.held <= bytes;
    stored_outcome(s, long, samples, table)?;
    unless(2 <= s.held, Refusal::Few)
}
