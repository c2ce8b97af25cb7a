// The read-out: the ranks that a table of costs gives, and the segments counted from ranks.
#![tactic(auto)]

ghost use Rattle.std.specs.Prelude.{◌≡◌, ℕ, ◌+◌, ◌-◌, ◌*◌, ◌≤◌, ◌<◌, length, get_or};
ghost use Rattle.family.specs.Family.{segments};
ghost use Rattle.table.specs.Table.{costs};
ghost use Rattle.readout.specs.Read.{rank};
ghost use Rattle.readout.specs.Lay.{Ranked, Counted, ReadBy, Way, Laying, Bare, Marked, Started};

use table::Table;

// The chosen stop after each sample on the way to the next sample of a level above k.
fn stops(table: Table<'_>, ranks: &[u8], k: usize) -> [usize; 256]
    requires le_k { (1 ≤ k) × (k ≤ 16) × (table.capacity ≤ 256) × (0 < length ranks.now) × (length ranks.now ≤ table.capacity) }
    requires cap_in_bounds { k * (table.capacity * table.capacity) ≤ length table.cells.now }
    ensures { (x : ℕ) → x + 1 < length ranks.now → Way (costs table.entry k) (rank ranks.now) k (length ranks.now) x (get_or result x 0) }
{
    let mut to: [usize; 256] = [0; 256];
    let mut sums: [u32; 256] = [0; 256];
    let mut j = ranks.len() - 1;
    for x in (0..ranks.len() - 1).rev() {
        let stop = table.best_stop(&sums, k, x, j);
        sums[x] = stop.sum;
        to[x] = stop.to;
        if k < ranks[x] as usize {
            j = x;
        }
    }
    to
}

// Raise the rank of q to k.
fn mark(ranks: &mut [u8], q: usize, k: usize)
    requires { (q < length ranks.old) × (k ≤ 16) }
    ensures { Marked q k ranks.old ranks.new }
{
    ranks[q] = ranks[q].max(k as u8);
}

// Lay level k between the samples of the levels above it.
#[tactic(auto, using(crate::proofs::Lay::way_after, crate::proofs::Lay::way_inside, crate::proofs::Lay::laying_more))]
fn lay_level(table: Table<'_>, ranks: &mut [u8], k: usize)
    requires le_k { (1 ≤ k) × (k ≤ 16) × (table.capacity ≤ 256) × (0 < length ranks.old) × (length ranks.old ≤ table.capacity) }
    requires cap_in_bounds { k * (table.capacity * table.capacity) ≤ length table.cells.now }
    requires bare { Bare k (length ranks.old) (rank ranks.old) }
    ensures { Laying (costs table.entry k) k (length ranks.old) (length ranks.old - 1) (rank ranks.old) (rank ranks.new) }
{
    let to = stops(table, ranks, k);
    // From stop to stop, which no range counts.
    let mut p = 0;
    while p + 1 < ranks.len() {
        p = to[p];
        mark(ranks, p, k);
    }
}

// Give both ends of the samples rank m, and those between rank 0.
fn start(ranks: &mut [u8], m: usize)
    requires { (m ≤ 16) × (1 < length ranks.old) }
    ensures { Started m (length ranks.old) ranks.old ranks.new }
{
    ranks.fill(0);
    ranks[0] = m as u8;
    ranks[ranks.len() - 1] = m as u8;
}

// Write the ranks of samples: both ends, then the levels from m down.
#[tactic(auto, using(crate::proofs::Down::ranked))]
fn lay_all(table: Table<'_>, ranks: &mut [u8], m: usize)
    requires le_m { (1 ≤ m) × (m ≤ 16) × (table.capacity ≤ 256) × (1 < length ranks.old) × (length ranks.old ≤ table.capacity) }
    requires cap_in_bounds { m * (table.capacity * table.capacity) ≤ length table.cells.now }
    ensures { Ranked table.entry.cells.now table.entry.capacity m (length ranks.old) ranks.old ranks.new }
{
    start(ranks, m);
    for k in (1..=m).rev() {
        lay_level(table, ranks, k);
    }
}

// The segments of each level, and their total.
#[derive(Clone, Copy)]
pub struct Segments {
    pub per: [u16; 16],
    pub total: u32,
}

// The segments of level k.
fn count_level(ranks: &[u8], k: usize) -> u16
    requires { (0 < length ranks.now) × (length ranks.now ≤ 256) }
    ensures { (result ≡ segments (rank ranks.now) k 0 (length ranks.now - 1)) × (result ≤ 255) }
{
    ranks[1..].iter().filter(|r| k <= **r as usize).count() as u16
}

// The segments of the first m levels, counted from the ranks of samples.
fn count_all(ranks: &[u8], m: usize) -> Segments
    requires { (m ≤ 16) × (0 < length ranks.now) × (length ranks.now ≤ 256) }
    ensures { Counted (rank ranks.now) m (length ranks.now) result.per result.total }
{
    let mut per: [u16; 16] = [0; 16];
    let mut total: u32 = 0;
    for l in 0..m {
        let count = count_level(ranks, l + 1);
        per[l] = count;
        total += count as u32;
    }
    Segments { per, total }
}

// Read out: write the ranks of n samples, and count their segments.
pub fn read(table: Table<'_>, ranks: &mut [u8], m: usize, n: usize) -> Segments
    requires le_m { (1 ≤ m) × (m ≤ 16) × (table.capacity ≤ 256) × (1 < n) × (n ≤ table.capacity) }
    requires cap_in_bounds { (m * (table.capacity * table.capacity) ≤ length table.cells.now) × (n ≤ length ranks.old) }
    ensures { ReadBy table.entry.cells.now table.entry.capacity m n ranks.old ranks.new result.per result.total }
{
    let held = &mut ranks[..n];
    lay_all(table, held, m);
    count_all(held, m)
}
