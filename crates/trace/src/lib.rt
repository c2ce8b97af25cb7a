// A trace's setup, and the public calls on a trace: each checks its row of refusals, then acts.
#![tactic(auto)]

ghost use Rattle.std.specs.Prelude.{◌≡◌, ◌<◌, length};
ghost use Rattle.sample.specs.Samples.{samples, lent};
ghost use Rattle.checks.specs.Numbers.{OneLength};
ghost use Rattle.checks.specs.Rows.{trace_outcome, Passed, PassedTable};
ghost use Rattle.trace.specs.Calls.{sizes, buffers, holding, StartGives, PutGives, AskGives, ReadGives};
ghost use Rattle.trace.specs.Upload.{zipped, Puts, UploadGives};

use geometry::Verdict;
use readout::Segments;
use refusal::{Outcome, Refusal};
use sample::{Lent, Sample};
use sizes::Sizes;
use table::Table;

// A trace's setup: levels m, capacity N, samples held n, and the tolerances of levels 1 to m; those past m are never read.
#[derive(Clone, Copy)]
pub struct Trace {
    pub levels: usize,
    pub capacity: usize,
    pub held: usize,
    pub tolerances: [u32; 16],
}

// Each answer is a struct and no Result: the requirements say what a refusal returns beside its number.
// What start gives: an empty trace; refused, a trace of no levels and no capacity.
#[derive(Clone, Copy)]
pub struct Started {
    pub outcome: Outcome,
    pub trace: Trace,
}

// What put gives: the next trace and the count of cells written; refused, the trace given and 0.
#[derive(Clone, Copy)]
pub struct Changed {
    pub outcome: Outcome,
    pub trace: Trace,
    pub cells: usize,
}

// What upload gives: why it stopped, Ok where all its samples were taken, else the refusal of the first that was not; the trace then, how many samples were added, and the count of cells written.
#[derive(Clone, Copy)]
pub struct Uploaded {
    pub stop: Outcome,
    pub trace: Trace,
    pub added: usize,
    pub cells: usize,
}

// What read gives: the segments of each level, zero past m, and their total; refused, zeros.
#[derive(Clone, Copy)]
pub struct Levels {
    pub outcome: Outcome,
    pub segments: [u16; 16],
    pub total: u32,
}

// The ranges.
impl Trace {
    pub const LEVELS_LEAST: usize = sizes::LEVELS_LEAST;

    pub const LEVELS_MOST: usize = sizes::LEVELS_MOST;

    pub const CAPACITY_LEAST: usize = sizes::CAPACITY_LEAST;

    pub const CAPACITY_MOST: usize = sizes::CAPACITY_MOST;

    pub const COORDINATE_LEAST: i16 = sample::COORDINATE_LEAST;

    pub const COORDINATE_MOST: i16 = sample::COORDINATE_MOST;

    // The mark of the first sample of a new boot; that of any other is 0.
    pub const MARKED: u8 = sample::MARKED;

    pub const TOLERANCE_LEAST: u32 = sizes::TOLERANCE_LEAST;

    pub const TOLERANCE_MOST: u32 = sizes::TOLERANCE_MOST;
}

// The calls. Buffers that a call writes stay slices: two fields of a struct of `&mut` cannot be lent on together.
impl Trace {
    // What the checks know of it: the same fields, since the crates below know no trace.
    fn sizes(self) -> Sizes
        ensures { result ≡ sizes self }
    {
        let Trace {
            levels,
            capacity,
            held,
            tolerances,
        } = self;
        Sizes {
            levels,
            capacity,
            held,
            tolerances,
        }
    }

    // The trace with n samples.
    fn holding(self, n: usize) -> Trace
        ensures { result ≡ holding self n }
    {
        Trace { held: n, ..self }
    }

    // put, after checks 1 to 5 and by what they said: the sample is checked, and the trace is changed.
    fn admit(
        self,
        first: Outcome,
        xs: &mut [i16],
        ys: &mut [i16],
        marks: &mut [u8],
        table: &mut [u16],
        v: usize,
        sample: Sample,
    ) -> Changed
        requires { first ≡ trace_outcome (sizes self) (samples xs.old ys.old marks.old) table.old }
        ensures { PutGives self (buffers (samples xs.old ys.old marks.old) table.old) v sample result (buffers (samples xs.new ys.new marks.new) table.new) }
    {
        let own = checks::sample_outcome(self.sizes(), v, sample);
        let outcome = first.and(own);
        let Ok(()) = outcome else {
            return Changed {
                outcome,
                trace: self,
                cells: 0,
            };
        };
        let next = self.holding(sizes::held_with(self.held, v));
        let cells = change::change(next.sizes(), xs, ys, marks, table, v, sample);
        Changed {
            outcome,
            trace: next,
            cells,
        }
    }

    // Put the samples of lists of one length one by one at the end, up to the first refused. A sample put leaves a trace that passes checks 1 to 5, so these are made once, by the caller.
    fn add_each(
        self,
        xs: &mut [i16],
        ys: &mut [i16],
        marks: &mut [u8],
        table: &mut [u16],
        lists: Lent<'_>,
    ) -> Uploaded
        requires { OneLength (lent lists) × (0 < length lists.across.now → Passed (sizes self) (samples xs.old ys.old marks.old) × PassedTable (sizes self) table.old) }
        ensures { Puts self (buffers (samples xs.old ys.old marks.old) table.old) (zipped lists.entry.across.now lists.entry.up.now lists.entry.marks.now) result (buffers (samples xs.new ys.new marks.new) table.new) }
    {
        let mut trace = self;
        let mut cells = 0;
        for i in 0..lists.across.len() {
            let next = trace.admit(Ok(()), xs, ys, marks, table, trace.held, lists.at(i));
            let Ok(()) = next.outcome else {
                return Uploaded {
                    stop: next.outcome,
                    trace,
                    added: i,
                    cells,
                };
            };
            trace = next.trace;
            cells += next.cells;
        }
        Uploaded {
            stop: Ok(()),
            trace,
            added: lists.across.len(),
            cells,
        }
    }

    // An empty trace.
    pub fn start(levels: usize, capacity: usize, tolerances: [u32; 16]) -> Started
        ensures { StartGives levels capacity tolerances result }
    {
        let outcome = sizes::setup_outcome(levels, capacity, tolerances);
        let Ok(()) = outcome else {
            return Started {
                outcome,
                trace: Trace {
                    levels: 0,
                    capacity: 0,
                    held: 0,
                    tolerances: [0; 16],
                },
            };
        };
        Started {
            outcome,
            trace: Trace {
                levels,
                capacity,
                held: 0,
                tolerances: sizes::keep(levels, tolerances),
            },
        }
    }

    // A sample at place v: a correction where v is below n, an addition where v is n.
    pub fn put(
        self,
        xs: &mut [i16],
        ys: &mut [i16],
        marks: &mut [u8],
        table: &mut [u16],
        v: usize,
        sample: Sample,
    ) -> Changed
        ensures { PutGives self (buffers (samples xs.old ys.old marks.old) table.old) v sample result (buffers (samples xs.new ys.new marks.new) table.new) }
    {
        let held = Lent {
            across: xs,
            up: ys,
            marks,
        };
        let first = checks::trace_outcome(self.sizes(), held, table);
        self.admit(first, xs, ys, marks, table, v, sample)
    }

    // The samples of three lists, each put at the end, up to the first refused; those before it stay. Empty lists check nothing.
    pub fn upload(
        self,
        xs: &mut [i16],
        ys: &mut [i16],
        marks: &mut [u8],
        table: &mut [u16],
        lists: Lent<'_>,
    ) -> Uploaded
        ensures { UploadGives self (buffers (samples xs.old ys.old marks.old) table.old) (lent lists.entry) result (buffers (samples xs.new ys.new marks.new) table.new) (lent lists.entry) }
    {
        let held = Lent {
            across: xs,
            up: ys,
            marks,
        };
        let stop = checks::upload_outcome(self.sizes(), held, table, checks::lengths_of(lists));
        let Ok(()) = stop else {
            return Uploaded {
                stop,
                trace: self,
                added: 0,
                cells: 0,
            };
        };
        self.add_each(xs, ys, marks, table, lists)
    }

    // Whether the stretch from sample i to sample j is permitted at level k: yes, or no with the lowest sample that is marked or lies too far away.
    pub fn ask(self, samples: Lent<'_>, k: usize, i: usize, j: usize) -> Result<Verdict, Refusal>
        ensures { AskGives self (lent samples.entry) k i j result (lent samples.entry) }
    {
        checks::ask_outcome(self.sizes(), samples, k, i, j)?;
        Ok(geometry::permitted(samples, i, j, self.tolerances[k - 1]))
    }

    // Write the ranks of the samples held, and count the segments of each level.
    pub fn read(self, samples: Lent<'_>, table: &[u16], ranks: &mut [u8]) -> Levels
        ensures { ReadGives self (buffers (lent samples.entry) table.now) ranks.old result (buffers (lent samples.entry) table.now) ranks.new }
    {
        let outcome = checks::read_outcome(self.sizes(), samples, table, ranks.len());
        let Ok(()) = outcome else {
            return Levels {
                outcome,
                segments: [0; 16],
                total: 0,
            };
        };
        let costs = Table {
            cells: table,
            capacity: self.capacity,
        };
        let Segments { per, total } = readout::read(costs, ranks, self.levels, self.held);
        Levels {
            outcome,
            segments: per,
            total,
        }
    }
}
