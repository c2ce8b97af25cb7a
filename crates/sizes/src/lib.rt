// How large a trace is, by value: levels, capacity, samples held and tolerances; their ranges, and refusals 1 and 2.
#![tactic(auto)]

ghost use Rattle.std.specs.Prelude.{◌≡◌, ◌≤◌, length};
ghost use Rattle.sizes.specs.Setup.{kept, held_with};
ghost use Rattle.sizes.specs.Rows.{setup_ok, tolerances_ok, setup_outcome};

use refusal::{Outcome, Refusal, unless};

// Levels m, capacity N, samples held n, and the tolerances of levels 1 to m; those past m are never read.
// A trace's setup has the same fields: the requirements want it as a type with its calls.
#[derive(Clone, Copy)]
pub struct Sizes {
    pub levels: usize,
    pub capacity: usize,
    pub held: usize,
    pub tolerances: [u32; 16],
}

pub const LEVELS_LEAST: usize = 1;

pub const LEVELS_MOST: usize = 16;

pub const CAPACITY_LEAST: usize = 2;

pub const CAPACITY_MOST: usize = 256;

pub const TOLERANCE_LEAST: u32 = 1;

pub const TOLERANCE_MOST: u32 = 32768;

// Whether levels and capacity are in range.
#[tactic(auto, unfolding(crate::specs::Rows::setup_ok))]
fn setup_ok(m: usize, cap: usize) -> bool
    ensures { result ≡ setup_ok m cap }
{
    (LEVELS_LEAST..=LEVELS_MOST).contains(&m) && (CAPACITY_LEAST..=CAPACITY_MOST).contains(&cap)
}

// Whether tolerances are in range and rise.
fn tolerances_ok(tolerances: &[u32]) -> bool
    ensures { result ≡ tolerances_ok (length tolerances.now) tolerances.now }
{
    let mut least = TOLERANCE_LEAST;
    for &e in tolerances {
        if e < least || TOLERANCE_MOST < e {
            return false;
        }
        least = e + 1;
    }
    true
}

// Refusals 1 and 2: the setup.
#[tactic(auto, unfolding(crate::specs::Rows::setup_outcome))]
pub fn setup_outcome(m: usize, cap: usize, tolerances: [u32; 16]) -> Outcome
    ensures { result ≡ setup_outcome m cap tolerances }
{
    unless(setup_ok(m, cap), Refusal::Setup)?;
    unless(tolerances_ok(&tolerances[..m]), Refusal::Tolerance)
}

// The first m tolerances, and zeros after them.
pub fn keep(m: usize, tolerances: [u32; 16]) -> [u32; 16]
    requires { m ≤ 16 }
    ensures { result ≡ kept m tolerances }
{
    let mut out: [u32; 16] = [0; 16];
    out[..m].copy_from_slice(&tolerances[..m]);
    out
}

// How many samples are held once sample v is put among n.
pub fn held_with(n: usize, v: usize) -> usize
    requires { n ≤ 256 }
    ensures { result ≡ held_with n v }
{
    if v < n { n } else { n + 1 }
}
