// The house record: 16 bytes, low byte first.
#![tactic(auto)]

ghost use Rattle.std.specs.Prelude.{◌≡◌, ◌+◌, ◌≤◌, ◌<◌, length};
ghost use Rattle.record.specs.Record.{counter, edition_ok, spare_ok, fields_ok, record_outcome, decode_outcome, decode_of};

use refusal::{Outcome, Refusal, unless};
use sample::coordinate_ok;
use words::{long_at, signed_at, word_at};

// The bytes of a record.
pub const RECORD_BYTES: usize = 16;

// The highest rank.
pub const RANK_MOST: u8 = 16;

// The edition with a boot number; the one without is 0.
pub const WITH_BOOT: u8 = 1;

// Where the fields after `across` stand in a record.
const UP: usize = 2;

const PAUSE: usize = 4;

const RANK: usize = 8;

pub const BOOT: usize = 9;

pub const EDITION: usize = 11;

const SPARE: usize = 12;

const SPARE_BYTES: usize = 4;

// What one house record says; on refusal every field is zero, as the requirements ask, so it is no Result.
#[derive(Clone, Copy)]
pub struct Decoded {
    pub outcome: Outcome,
    pub across: i16,
    pub up: i16,
    pub pause: u32,
    pub rank: u8,
    pub boot: u16,
    pub edition: u8,
}

// The pause counter of the record at place p.
#[tactic(auto, unfolding(crate::specs::Record::counter))]
pub fn counter_at(s: &[u8], p: usize) -> u32
    requires { p + 16 ≤ length s.now }
    ensures { result ≡ counter s.now p }
{
    long_at(s, p + PAUSE)
}

// Whether the edition of the record at place p is 0, without a boot number, or 1.
#[tactic(auto, unfolding(crate::specs::Record::edition_ok))]
fn edition_ok(s: &[u8], p: usize) -> bool
    requires { p + 16 ≤ length s.now }
    ensures { result ≡ edition_ok s.now p }
{
    match s[p + EDITION] {
        0 => word_at(s, p + BOOT) == 0,
        edition => edition == WITH_BOOT,
    }
}

// Whether the spare bytes of the record at place p are zero.
#[tactic(auto, unfolding(crate::specs::Record::spare_ok))]
fn spare_ok(s: &[u8], p: usize) -> bool
    requires { p + 16 ≤ length s.now }
    ensures { result ≡ spare_ok s.now p }
{
    let spare = p + SPARE;
    s[spare..spare + SPARE_BYTES].iter().all(|b| *b == 0)
}

// Whether the record at place p is in order, its coordinates apart.
#[tactic(auto, unfolding(crate::specs::Record::fields_ok))]
fn fields_ok(s: &[u8], p: usize) -> bool
    requires { p + 16 ≤ length s.now }
    ensures { result ≡ fields_ok s.now p }
{
    s[p + RANK] <= RANK_MOST && edition_ok(s, p) && spare_ok(s, p)
}

// The record at place p: 6, then 11.
#[tactic(auto, unfolding(crate::specs::Record::record_outcome))]
pub fn record_outcome(s: &[u8], p: usize) -> Outcome
    requires { p + 16 ≤ length s.now }
    ensures { result ≡ record_outcome s.now p }
{
    let placed = coordinate_ok(signed_at(s, p)) && coordinate_ok(signed_at(s, p + UP));
    unless(placed, Refusal::Coordinate)?;
    unless(fields_ok(s, p), Refusal::Record)
}

// One record alone: 10, then 6 and 11.
#[tactic(auto, unfolding(crate::specs::Record::decode_outcome))]
fn decode_outcome(s: &[u8]) -> Outcome
    ensures { result ≡ decode_outcome s.now }
{
    unless(s.len() == RECORD_BYTES, Refusal::Length)?;
    record_outcome(s, 0)
}

// One house record.
#[tactic(auto, using(crate::proofs::Record::decode_length), unfolding(crate::specs::Record::decode_of))]
pub fn decode(record: &[u8]) -> Decoded
    ensures value { result ≡ decode_of «record».now }
{
    match decode_outcome(record) {
        Ok(()) => Decoded {
            outcome: Ok(()),
            across: signed_at(record, 0),
            up: signed_at(record, UP),
            pause: counter_at(record, 0),
            rank: record[RANK],
            boot: word_at(record, BOOT),
            edition: record[EDITION],
        },
        Err(why) => Decoded {
            outcome: Err(why),
            across: 0,
            up: 0,
            pause: 0,
            rank: 0,
            boot: 0,
            edition: 0,
        },
    }
}
