// The table of costs: where a cell stands, check 5 of the cells that a trace holds, and the chosen step of a path over one level's cells.
#![tactic(auto)]

ghost use Rattle.std.specs.Prelude.{◌≡◌, ℕ, ◌+◌, ◌*◌, ◌≤◌, ◌<◌, length, get_or};
ghost use Rattle.table.specs.Table.{at, costs};
ghost use Rattle.table.specs.Path.{SumAt, Stopped};
ghost use Rattle.table.specs.Check.{cell_ok, long_ok, row_ok, level_ok, cells_ok};

// The cost where no segment permits a stretch.
pub const NONE: u16 = 65535;

// The address of the cell of level k and stretch i to j, with room for cap samples.
pub fn cell_at(cap: usize, k: usize, i: usize, j: usize) -> usize
    requires { (1 ≤ k) × (k ≤ 16) × (cap ≤ 256) × (i < cap) × (j < cap) }
    ensures { (result ≡ at cap k i j) × (result < k * (cap * cap)) }
{
    (k - 1) * (cap * cap) + i * cap + j
}

// Whether a cell of level k may hold the cost: none, or from k to most.
#[tactic(auto, using(std::proofs::lemmas::Bool::Decides::nat_tests), unfolding(crate::specs::Check::long_ok))]
fn long_ok(k: u16, most: u16, cost: u16) -> bool
    ensures { result ≡ long_ok k most cost }
{
    cost == NONE || (k..=most).contains(&cost)
}

// Whether the cells of one row may hold what they hold: those of level k of the stretches of 1, 2, .. steps from one sample, one after another.
// The first is that of neighbours and is not none. A bad cell does not end the loop, so that it is compiled to many cells at a time.
#[tactic(auto, using(crate::proofs::Check::row_none, crate::proofs::Check::row_more, crate::proofs::Check::row_all))]
fn row_ok(row: &[u16], k: u16) -> bool
    requires { (1 ≤ k) × (k ≤ 16) × (1 ≤ length row.now) × (length row.now ≤ 256) }
    ensures { result ≡ row_ok row.now 0 k (length row.now) }
{
    let mut ok = row[0] != NONE;
    let mut most = 1;
    for cost in row {
        most += k - 1;
        ok &= long_ok(k, most, *cost);
    }
    ok
}

// The least sum of a path, and where it goes first.
#[derive(Clone, Copy)]
pub struct Stop {
    pub sum: u32,
    pub to: usize,
}

// A table of cells with room for so many samples, lent to be read.
#[derive(Clone, Copy)]
pub struct Table<'a> {
    pub cells: &'a [u16],
    pub capacity: usize,
}

impl Table<'_> {
    // Whether the cells of level k of the stretches of the first held samples may hold what they hold.
    fn level_ok(self, held: usize, k: usize) -> bool
        requires { (1 ≤ k) × (k ≤ 16) × (self.capacity ≤ 256) × (k * (self.capacity * self.capacity) ≤ length self.cells.now) × (held ≤ self.capacity) }
        ensures { result ≡ level_ok self.entry.cells.now self.entry.capacity held k }
    {
        for j in 1..held {
            let base = cell_at(self.capacity, k, j - 1, j);
            if !row_ok(&self.cells[base..base + (held - j)], k as u16) {
                return false;
            }
        }
        true
    }

    // Check 5 of the table: whether every cell of a stretch of the first held samples, at levels 1 to m, may hold what it holds.
    #[tactic(auto, using(crate::proofs::Check::levels_no, crate::proofs::Check::levels_yes))]
    pub fn all_ok(self, held: usize, m: usize) -> bool
        requires { (m ≤ 16) × (self.capacity ≤ 256) × (m * (self.capacity * self.capacity) ≤ length self.cells.now) × (held ≤ self.capacity) }
        ensures { result ≡ cells_ok self.entry.cells.now self.entry.capacity held m }
    {
        for k in 1..=m {
            if !self.level_ok(held, k) {
                return false;
            }
        }
        true
    }

    // What the cell of level k and stretch i to j holds.
    pub fn cost_at(self, k: usize, i: usize, j: usize) -> u32
        requires le_k { (1 ≤ k) × (k ≤ 16) × (self.capacity ≤ 256) × (i < self.capacity) × (j < self.capacity) }
        requires cap_in_bounds { k * (self.capacity * self.capacity) ≤ length self.cells.now }
        ensures { (result ≡ costs self.entry k i j) × (result ≤ 65535) }
    {
        self.cells[cell_at(self.capacity, k, i, j)] as u32
    }

    // The least sum from p to j over the cells of level k, where sums has the least sums from the places between.
    // The loop goes up, along the row, and keeps no stop, so that it is compiled to many cells at a time.
    #[tactic(auto, using(crate::proofs::Stops::lesser_none, crate::proofs::Stops::lesser_more, crate::proofs::Stops::lesser_all))]
    pub fn least_sum(self, sums: &[u32; 256], k: usize, p: usize, j: usize) -> u32
        requires le_k { (1 ≤ k) × (k ≤ 16) × (self.capacity ≤ 256) × (p < j) × (j < self.capacity) }
        requires cap_in_bounds { k * (self.capacity * self.capacity) ≤ length self.cells.now }
        requires by_index { (x : ℕ) → p < x → x < j → SumAt (costs self k) x j (get_or sums.now x 0) }
        ensures { SumAt (costs self.entry k) p j result }
    {
        let mut sum = self.cost_at(k, p, j);
        for x in p + 1..j {
            sum = sum.min(self.cost_at(k, p, x) + sums[x]);
        }
        sum
    }

    // The least sum from p to j over the cells of level k, and the chosen stop after p, where sums has the least sums from the places between.
    pub fn best_stop(self, sums: &[u32; 256], k: usize, p: usize, j: usize) -> Stop
        requires le_k { (1 ≤ k) × (k ≤ 16) × (self.capacity ≤ 256) × (p < j) × (j < self.capacity) }
        requires cap_in_bounds { k * (self.capacity * self.capacity) ≤ length self.cells.now }
        requires by_index { (x : ℕ) → p < x → x < j → SumAt (costs self k) x j (get_or sums.now x 0) }
        ensures { Stopped (costs self.entry k) p j result.sum result.to }
    {
        let mut sum = self.cost_at(k, p, j);
        let mut to = j;
        for x in (p + 1..j).rev() {
            let by = self.cost_at(k, p, x) + sums[x];
            if by < sum {
                sum = by;
                to = x;
            }
        }
        Stop { sum, to }
    }
}
