// A file of house records: the day's pause line, and the marks and samples of its records.
#![tactic(auto)]

ghost use Rattle.std.specs.Prelude.{◌≡◌, ◌+◌, ◌*◌, ◌≤◌, length};
ghost use Rattle.pause.specs.Pause.{file_length_ok, record_bytes, records_outcome, file_outcome, increase, increase_at, pause_sum, pause_line_of};
ghost use Rattle.pause.specs.Restart.{restarted as restarted_at, mark_of, sample_of};

use record::{BOOT, EDITION, RECORD_BYTES, WITH_BOOT, counter_at, record_outcome};
use refusal::{Outcome, Refusal, unless};
use sample::{MARKED, Sample};
use words::word_at;

// The records of a file at the most.
pub const RECORDS_MOST: usize = 4096;

// The pause line in milliseconds; on refusal the sum is zero, as the requirements ask, so it is no Result.
#[derive(Clone, Copy)]
pub struct PauseLine {
    pub outcome: Outcome,
    pub sum: u64,
}

// The bytes of record i of a file, and none where there is no such record.
#[tactic(auto, unfolding(crate::specs::Pause::record_bytes))]
pub fn record_of(file: &[u8], i: usize) -> &[u8]
    ensures result_value { result.now ≡ record_bytes file.now i }
{
    if i < file.len() / RECORD_BYTES {
        &file[RECORD_BYTES * i..][..RECORD_BYTES]
    } else {
        &[]
    }
}

// Whole records, and not too many.
#[tactic(auto, unfolding(crate::specs::Pause::file_length_ok))]
fn file_ok(len: usize) -> bool
    ensures { result ≡ file_length_ok len }
{
    len % RECORD_BYTES == 0 && len / RECORD_BYTES <= RECORDS_MOST
}

// The first refusal of the first n records.
#[tactic(auto, using(crate::proofs::Pause::records_more, crate::proofs::Pause::records_refused), unfolding(crate::specs::Pause::records_outcome))]
fn records_outcome(s: &[u8], n: usize) -> Outcome
    requires { 16 * n ≤ length s.now }
    ensures { result ≡ records_outcome s.now n }
{
    for i in 0..n {
        record_outcome(s, RECORD_BYTES * i)?;
    }
    Ok(())
}

// The file: 10 for the whole, then 6 and 11 of each record in file order.
#[tactic(auto, unfolding(crate::specs::Pause::file_outcome))]
fn file_outcome(s: &[u8]) -> Outcome
    ensures { result ≡ file_outcome s.now }
{
    unless(file_ok(s.len()), Refusal::Length)?;
    records_outcome(s, s.len() / RECORD_BYTES)
}

// Whether a restart lies between the records at places p and q.
#[tactic(auto, unfolding(crate::specs::Restart::restarted, crate::specs::Pause::both_with_boot))]
fn restarted(s: &[u8], p: usize, q: usize) -> bool
    requires { (p + 16 ≤ length s.now) × (q + 16 ≤ length s.now) }
    ensures { result ≡ restarted_at s.now p q }
{
    if s[p + EDITION] == WITH_BOOT && s[q + EDITION] == WITH_BOOT {
        word_at(s, p + BOOT) != word_at(s, q + BOOT)
    } else {
        counter_at(s, q) < counter_at(s, p)
    }
}

// The mark of record i of a file: 1 where a restart lies before it, 0 elsewhere and where there is no such record.
#[tactic(auto, using(crate::proofs::Marks::mark_first, crate::proofs::Marks::mark_after), unfolding(crate::specs::Restart::mark_of))]
pub fn mark_of(file: &[u8], i: usize) -> u8
    ensures value { result ≡ mark_of file.now i }
{
    let later = 0 < i && i < file.len() / RECORD_BYTES;
    if later && restarted(file, RECORD_BYTES * (i - 1), RECORD_BYTES * i) {
        MARKED
    } else {
        0
    }
}

// The sample of record i of a file, marked where a restart lies before it; where there is no such record, or it is refused, its coordinates are 0.
#[tactic(auto, unfolding(crate::specs::Restart::sample_of))]
pub fn sample_of(file: &[u8], i: usize) -> Sample
    ensures value { result ≡ sample_of file.now i }
{
    let decoded = record::decode(record_of(file, i));
    Sample {
        across: decoded.across,
        up: decoded.up,
        mark: mark_of(file, i),
    }
}

// What the record at place q adds after the one at place p: after a restart its counter, else the difference of two
// counters of one boot. It wraps only between two of edition 1, since by the old rule a lower counter is a restart.
#[tactic(auto, using(crate::proofs::Increase::increase_restarted, crate::proofs::Increase::increase_on), unfolding(crate::specs::Pause::difference))]
fn increase_of(s: &[u8], p: usize, q: usize) -> u32
    requires { (p + 16 ≤ length s.now) × (q + 16 ≤ length s.now) }
    ensures { result ≡ increase s.now p q }
{
    let later = counter_at(s, q);
    if restarted(s, p, q) {
        later
    } else {
        later.wrapping_sub(counter_at(s, p))
    }
}

// What record n adds to the line.
#[tactic(auto, using(crate::proofs::Pause::increase_after), unfolding(crate::specs::Pause::increase_at))]
fn increase_at(s: &[u8], n: usize) -> u32
    requires { 16 * n + 16 ≤ length s.now }
    ensures { result ≡ increase_at s.now n }
{
    if n == 0 {
        0
    } else {
        increase_of(s, RECORD_BYTES * (n - 1), RECORD_BYTES * n)
    }
}

// What the first n records add.
#[tactic(auto, using(crate::proofs::Pause::sum_more), unfolding(crate::specs::Pause::pause_sum))]
fn pause_sum(s: &[u8], n: usize) -> u64
    requires { (16 * n ≤ length s.now) × (n ≤ 4096) }
    ensures { result ≡ pause_sum s.now n }
{
    let mut sum = 0;
    for i in 0..n {
        sum += u64::from(increase_at(s, i));
    }
    sum
}

// The day's pause line of a file of records.
#[tactic(auto, using(crate::proofs::Pause::file_count), unfolding(crate::specs::Pause::pause_line_of))]
pub fn pause_line(records: &[u8]) -> PauseLine
    ensures value { result ≡ pause_line_of records.now }
{
    let outcome = file_outcome(records);
    let sum = if outcome.is_ok() {
        pause_sum(records, records.len() / RECORD_BYTES)
    } else {
        0
    };
    PauseLine { outcome, sum }
}
