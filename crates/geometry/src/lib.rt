// Whether a stretch of samples may be drawn as one segment, in whole numbers.
#![tactic(auto)]

ghost use Rattle.std.specs.Prelude.{◌≡◌, ◌+◌, ◌≤◌, ◌<◌, nat_abs, length};
ghost use Rattle.refusal.specs.Check.{Decides};
ghost use Rattle.algebra.specs.Parts.{sq};
ghost use Rattle.sample.specs.Coordinate.{InRange};
ghost use Rattle.geometry.specs.Near.{Along};
ghost use Rattle.geometry.specs.Nearest.{dot, cross, distance_from, distance};
ghost use Rattle.sample.specs.Samples.{lent};
ghost use Rattle.geometry.specs.Spoiler.{Clear, Told, Says};
ghost use Rattle.sample.specs.Sweep.{Ranged};
ghost use Rattle.geometry.specs.Way.{way, Way, NearBy};

use sample::Lent;

// A way across and up, from one sample to another.
#[derive(Clone, Copy)]
struct Move {
    across: i64,
    up: i64,
    ghost in_range: { Way across up },
}

impl Move {
    // The dot product.
    fn dot(self, other: Move) -> i64
        ensures { result ≡ dot other.across other.up self.across self.up }
    {
        self.across * other.across + self.up * other.up
    }

    // The cross product.
    fn cross(self, other: Move) -> i64
        ensures { result ≡ cross other.across other.up self.across self.up }
    {
        self.across * other.up - self.up * other.across
    }
}

// The squared length of a way across and up, between two samples or between the ends of two ways.
fn squared(across: i64, up: i64) -> u64
    requires { (nat_abs across ≤ 65536) × (nat_abs up ≤ 65536) }
    ensures { result ≡ sq across + sq up }
{
    (across * across + up * up) as u64
}

// The way from sample i to sample k, not before it.
fn way(samples: Lent<'_>, i: usize, k: usize) -> Move
    requires { (InRange samples.across.now (k + 1)) × (InRange samples.up.now (k + 1)) × (i ≤ k) }
    ensures { (result.across ≡ way samples.entry.across.now i k) × (result.up ≡ way samples.entry.up.now i k) }
{
    Move {
        across: samples.across[k] as i64 - samples.across[i] as i64,
        up: samples.up[k] as i64 - samples.up[i] as i64,
    }
}

// Where on a segment the point nearest to a sample lies: the three cases are drawn in specs/Nearest.antt.
#[derive(Clone, Copy)]
enum Nearest {
    Beginning,
    End,
    Between,
}

// A fraction of two whole numbers, top / bottom.
#[derive(Clone, Copy)]
struct Fraction {
    top: u64,
    bottom: u64,
}

// A segment seen from its beginning: the way to its end, and that way's squared length.
#[derive(Clone, Copy)]
struct Segment {
    end: Move,
    length: u64,
    ghost measured: { length ≡ sq end.across + sq end.up },
}

impl Segment {
    // The squared distance of a sample from the nearest point, by where that lies and the way to the sample.
    fn distance_from(self, at: Nearest, to: Move) -> Fraction
        ensures { result ≡ distance_from at self.end.across self.end.up to.across to.up }
    {
        let Segment { end, length } = self;
        match at {
            Nearest::Beginning => Fraction {
                top: squared(to.across, to.up),
                bottom: 1,
            },
            Nearest::End => Fraction {
                top: squared(to.across - end.across, to.up - end.up),
                bottom: 1,
            },
            Nearest::Between => {
                let cross = to.cross(end);
                Fraction {
                    top: (cross * cross) as u64,
                    bottom: length,
                }
            }
        }
    }

    // The squared distance of the sample from the segment: first where the nearest point lies, then how far away it is.
    fn distance(self, to: Move) -> Fraction
        ensures { result ≡ distance self.end.across self.end.up to.across to.up }
    {
        let Segment { end, length } = self;
        let dot = to.dot(end);
        if dot <= 0 {
            return self.distance_from(Nearest::Beginning, to);
        }
        if length <= dot as u64 {
            return self.distance_from(Nearest::End, to);
        }
        self.distance_from(Nearest::Between, to)
    }

    // Whether the sample lies within reach, a squared tolerance.
    fn near(self, to: Move, reach: u64) -> bool
        requires { reach ≤ 4294967296 }
        ensures { Decides (NearBy self.end.across self.end.up to.across to.up reach) result }
    {
        let d = self.distance(to);
        d.top <= reach * d.bottom
    }
}

// A verdict on samples: yes, or no with the lowest that spoils. An enum of its own, as the requirements name it.
#[derive(Clone, Copy)]
pub enum Verdict {
    Yes,
    No(usize),
}

// Judge by distance, at tolerance e, the samples from `from` on and before `to` of the stretch from sample i to sample j; those before it lie near.
pub fn judge(samples: Lent<'_>, i: usize, j: usize, e: u32, from: usize, to: usize) -> Verdict
    requires in_range { (InRange samples.across.now (j + 1)) × (InRange samples.up.now (j + 1)) × (i < from) × (from ≤ to) × (to ≤ j) × (e ≤ 65536) }
    requires clear { Clear (Along samples.across.now samples.up.now i j e) i from }
    ensures { Told (Along samples.entry.across.now samples.entry.up.now i j e) i to result }
{
    let end = way(samples, i, j);
    let segment = Segment {
        end,
        length: squared(end.across, end.up),
    };
    let reach = e as u64 * e as u64;
    for k in from..to {
        if !segment.near(way(samples, i, k), reach) {
            return Verdict::No(k);
        }
    }
    Verdict::Yes
}

// Whether the stretch from sample i to sample j is permitted at tolerance e: yes, or no with the lowest sample that is marked or lies too far away.
pub fn permitted(samples: Lent<'_>, i: usize, j: usize, e: u32) -> Verdict
    requires { (Ranged (lent samples) (j + 1)) × (j < length samples.marks.now) × (i < j) × (e ≤ 65536) }
    ensures { Says (lent samples.entry) i j e result }
{
    let first = sample::first_marked(samples.marks, i + 1, j);
    let verdict = judge(samples, i, j, e, i + 1, first);
    let Verdict::Yes = verdict else {
        return verdict;
    };
    if first < j {
        return Verdict::No(first);
    }
    verdict
}
