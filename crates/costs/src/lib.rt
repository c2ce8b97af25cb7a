// The one walk that rewrites the cells of the stretches with a sample, after it is added or corrected.
#![tactic(auto)]

ghost use Rattle.std.specs.Prelude.{◌≡◌, ℕ, suc, ◌+◌, ◌-◌, ◌*◌, ◌≤◌, ◌<◌, min, length, get_or};
ghost use Rattle.sample.specs.Samples.{lent};
ghost use Rattle.sample.specs.Sweep.{Ranged};
ghost use Rattle.family.specs.Family.{below};
ghost use Rattle.table.specs.Table.{costs, Wrote};
ghost use Rattle.table.specs.Path.{SumAt};
ghost use Rattle.costs.specs.Costs.{Named, named};
ghost use Rattle.permission.specs.Finest.{perm, Rising};
ghost use Rattle.costs.specs.Walk.{LowSteps, Rewritten, Row, Rows, from_finest, price as price_of, Settled};

use sample::Lent;
use sizes::Sizes;
use table::{NONE, Table};

// The least sums to j over the cells of level k, from each place up to j.
fn sums_to(table: Table<'_>, k: usize, j: usize) -> [u32; 256]
    requires le_k { (1 ≤ k) × (k ≤ 16) × (table.capacity ≤ 256) × (j < table.capacity) }
    requires cap_in_bounds { k * (table.capacity * table.capacity) ≤ length table.cells.now }
    ensures { (q : ℕ) → q ≤ j → SumAt (costs table.entry k) q j (get_or result q 0) }
{
    let mut sums = [0; 256];
    for p in (0..j).rev() {
        sums[p] = table.least_sum(&sums, k, p, j);
    }
    sums
}

// What a path over the level below adds to a cost of level k, from each place up to j.
fn rests(table: Table<'_>, k: usize, j: usize) -> [u32; 256]
    requires le_k { (1 ≤ k) × (k ≤ 16) × (table.capacity ≤ 256) × (j < table.capacity) }
    requires cap_in_bounds { k * (table.capacity * table.capacity) ≤ length table.cells.now }
    ensures { (q : ℕ) → q ≤ j → get_or result q 0 ≡ below (costs table.entry) (k - 1) q j }
{
    if k == 1 {
        return [0; 256];
    }
    sums_to(table, k - 1, j)
}

// What the cell of a stretch is to hold at level k.
#[tactic(auto, using(std::proofs::lemmas::Bool::Decides::nat_tests), unfolding(crate::specs::Walk::price))]
fn price(k: usize, finest: usize, rest: u32) -> u16
    requires { rest ≤ 65534 }
    ensures { result ≡ price_of k finest rest }
{
    if finest <= k { (rest + 1) as u16 } else { NONE }
}

// Write the cells of level k and end j, from the starts below top, of a slice: a `Table` is lent to be read.
fn write_row(
    table: &mut [u16],
    sums: &[u32; 256],
    finest: &[usize; 256],
    cap: usize,
    k: usize,
    j: usize,
    top: usize,
) -> usize
    requires le_k { (1 ≤ k) × (k ≤ 16) × (cap ≤ 256) × (j < cap) × (top ≤ j) }
    requires cap_in_bounds { k * (cap * cap) ≤ length table.old }
    requires by_index { (i : ℕ) → i < top → get_or sums.now i 0 ≤ 65534 }
    ensures value { result ≡ top }
    ensures wrote { Wrote cap (Row k j top) (λ k' i j'. price_of k' (get_or finest.now i 0) (get_or sums.now i 0)) table.old table.new }
{
    let mut count = 0;
    for i in 0..top {
        let a = table::cell_at(cap, k, i, j);
        table[a] = price(k, finest[i], sums[i]);
        count += 1;
    }
    count
}

// Write the cells of end j, from the starts below top, the lowest level first.
fn write_rows(table: &mut [u16], finest: &[usize; 256], s: Sizes, j: usize, top: usize) -> usize
    requires m_bound { (s.levels ≤ 16) × (s.capacity ≤ 256) × (j < s.capacity) × (top ≤ j) }
    requires cap_in_bounds { s.levels * (s.capacity * s.capacity) ≤ length table.old }
    requires settled { Settled table.old s.capacity s.levels j top }
    requires by_index { (x : ℕ) → suc x ≡ j → x < top → get_or finest.now x 0 ≤ 1 }
    ensures value { result ≡ s.levels * top }
    ensures rewritten { Rewritten s.capacity (from_finest finest.now) (Rows s.levels j top) table.old table.new }
{
    let mut count = 0;
    for k in 1..s.levels + 1 {
        let below = Table {
            cells: table,
            capacity: s.capacity,
        };
        let sums = rests(below, k, j);
        count += write_row(table, &sums, finest, s.capacity, k, j, top);
    }
    count
}

// Write the cells of the stretches that hold sample v and end at j.
fn write_end(table: &mut [u16], samples: Lent<'_>, s: Sizes, v: usize, j: usize) -> usize
    requires le_levels { (1 ≤ s.levels) × (s.levels ≤ 16) × (s.capacity ≤ 256) × (v ≤ j) × (j < s.capacity) × (Rising s.tolerances s.levels) }
    requires ranged { (Ranged (lent samples) (j + 1)) × (j < length samples.marks.now) × (s.levels * (s.capacity * s.capacity) ≤ length table.old) }
    requires settled { Settled table.old s.capacity s.levels j (v + 1) }
    ensures value { result ≡ s.levels * min j (v + 1) }
    ensures rewritten { Rewritten s.capacity (perm (lent samples.entry) s.tolerances) (Rows s.levels j (min j (v + 1))) table.old table.new }
{
    let top = j.min(v + 1);
    let levels = permission::finests(samples, &s.tolerances, s.levels, j, top);
    write_rows(table, &levels, s, j, top)
}

// Write the cells of the stretches that hold sample v, of the samples held, end by end, and count them.
pub fn rewrite(table: &mut [u16], samples: Lent<'_>, s: Sizes, v: usize) -> usize
    requires le_levels { (1 ≤ s.levels) × (s.levels ≤ 16) × (s.capacity ≤ 256) × (v < s.held) × (s.held ≤ s.capacity) × (Rising s.tolerances s.levels) }
    requires ranged { (Ranged (lent samples) s.held) × (s.held ≤ length samples.marks.now) × (s.levels * (s.capacity * s.capacity) ≤ length table.old) }
    requires low_steps { LowSteps table.old s.capacity s.levels v s.held }
    ensures value { result ≡ named s.levels v s.held }
    ensures rewritten { Rewritten s.capacity (perm (lent samples.entry) s.tolerances) (Named s.levels v s.held) table.old table.new }
{
    let mut count = 0;
    for j in v..s.held {
        count += write_end(table, samples, s, v, j);
    }
    count
}
