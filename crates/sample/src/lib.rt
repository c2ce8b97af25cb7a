// What a sample is: its coordinates and its mark, their ranges, and the sweeps over the marks of a trace.
#![tactic(auto)]

ghost use Rattle.std.specs.Prelude.{◌≡◌, ◌≤◌, ◌<◌, length};
ghost use Rattle.sample.specs.Coordinate.{coordinate_ok, coordinates_ok};
ghost use Rattle.sample.specs.Mark.{mark_ok, marks_ok};
ghost use Rattle.sample.specs.Samples.{sample_at, lent};
ghost use Rattle.sample.specs.Sweep.{FirstMarked, LastMarked};
ghost use Rattle.sample.specs.Valid.{sample_ok, samples_ok};

// The range of a coordinate.
pub const COORDINATE_LEAST: i16 = -16384;

pub const COORDINATE_MOST: i16 = 16384;

// The mark of the first sample of a new boot; that of any other is 0.
pub const MARKED: u8 = 1;

// Whole steps across and up, and the mark.
#[derive(Clone, Copy)]
pub struct Sample {
    pub across: i16,
    pub up: i16,
    pub mark: u8,
}

// Whether a coordinate is in range.
#[tactic(auto, unfolding(crate::specs::Coordinate::coordinate_ok))]
pub fn coordinate_ok(x: i16) -> bool
    ensures { result ≡ coordinate_ok x }
{
    (COORDINATE_LEAST..=COORDINATE_MOST).contains(&x)
}

// Whether the first n coordinates of a buffer are in range.
pub fn coordinates_ok(s: &[i16], n: usize) -> bool
    requires { n ≤ length s.now }
    ensures { result ≡ coordinates_ok s.now n }
{
    s[..n].iter().all(|x| coordinate_ok(*x))
}

// Whether a mark is in range.
pub fn mark_ok(mark: u8) -> bool
    ensures { result ≡ mark_ok mark }
{
    mark <= MARKED
}

// Whether the first n marks of a buffer are in range.
pub fn marks_ok(s: &[u8], n: usize) -> bool
    requires { n ≤ length s.now }
    ensures { result ≡ marks_ok s.now n }
{
    s[..n].iter().all(|mark| mark_ok(*mark))
}

// Whether the coordinates and the mark of a sample are in range.
#[tactic(auto, unfolding(crate::specs::Valid::sample_ok))]
pub fn sample_ok(sample: Sample) -> bool
    ensures { result ≡ sample_ok sample }
{
    coordinate_ok(sample.across) && coordinate_ok(sample.up) && mark_ok(sample.mark)
}

// The samples that are lent, in three buffers.
#[derive(Clone, Copy)]
pub struct Lent<'a> {
    pub across: &'a [i16],
    pub up: &'a [i16],
    pub marks: &'a [u8],
}

impl Lent<'_> {
    // Whether the coordinates and the marks of the first n are in range.
    #[tactic(auto, unfolding(crate::specs::Valid::samples_ok))]
    pub fn all_ok(self, n: usize) -> bool
        requires { (n ≤ length self.across.now) × (n ≤ length self.up.now) × (n ≤ length self.marks.now) }
        ensures { result ≡ samples_ok (lent self.entry) n }
    {
        coordinates_ok(self.across, n) && coordinates_ok(self.up, n) && marks_ok(self.marks, n)
    }

    // Sample q, which they have.
    pub fn at(self, q: usize) -> Sample
        requires { (q < length self.across.now) × (q < length self.up.now) × (q < length self.marks.now) }
        ensures { result ≡ sample_at (lent self.entry) q }
    {
        Sample {
            across: self.across[q],
            up: self.up[q],
            mark: self.marks[q],
        }
    }
}

// The lowest marked sample of those from `from` on and before j, j where there is none.
pub fn first_marked(marks: &[u8], from: usize, j: usize) -> usize
    requires { (from ≤ j) × (j < length marks.now) }
    ensures { FirstMarked marks.now from j result }
{
    (from..j).find(|k| marks[*k] == MARKED).unwrap_or(j)
}

// The highest marked sample before j, 0 where there is none.
pub fn last_marked(marks: &[u8], j: usize) -> usize
    requires { j < length marks.now }
    ensures { LastMarked marks.now j result }
{
    (0..j).rev().find(|q| marks[*q] == MARKED).unwrap_or(0)
}
