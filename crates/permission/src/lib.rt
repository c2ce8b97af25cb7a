// Which levels permit a stretch: the finest of each stretch to one end.
#![tactic(auto)]

ghost use Rattle.std.specs.Prelude.{ℕ, ◌+◌, ◌≤◌, ◌<◌, length, get_or};
ghost use Rattle.sample.specs.Coordinate.{InRange};
ghost use Rattle.sample.specs.Samples.{samples as samples_of, lent};
ghost use Rattle.sample.specs.Sweep.{Ranged, no_marks};
ghost use Rattle.permission.specs.Finest.{perm, Rising, Finest};

use geometry::Verdict;
use sample::Lent;

// The finest level at which the stretch i to j, with no marked sample between, is permitted; m + 1 where there is none. Not taken into the loop over the starts, where the scans of a flat day take more instructions.
#[inline(never)]
fn finest(samples: Lent<'_>, tolerances: &[u32; 16], m: usize, i: usize, j: usize) -> usize
    requires { (InRange samples.across.now (j + 1)) × (InRange samples.up.now (j + 1)) × (i < j) × (m ≤ 16) × (Rising tolerances.now m) }
    ensures { Finest (perm (samples_of samples.entry.across.now samples.entry.up.now no_marks) tolerances.now) m i j result }
{
    let mut from = i + 1;
    for k in 1..m + 1 {
        let verdict = geometry::judge(samples, i, j, tolerances[k - 1], from, j);
        let Verdict::No(spoiler) = verdict else {
            return k;
        };
        from = spoiler;
    }
    m + 1
}

// The finest levels of the stretches to j from the starts below top. Those from starts before the last marked sample pass over it, and have none.
pub fn finests(
    samples: Lent<'_>,
    tolerances: &[u32; 16],
    m: usize,
    j: usize,
    top: usize,
) -> [usize; 256]
    requires { (Ranged (lent samples) (j + 1)) × (j < length samples.marks.now) × (top ≤ j) × (j < 256) × (m ≤ 16) × (Rising tolerances.now m) }
    ensures { (i : ℕ) → i < top → Finest (perm (lent samples.entry) tolerances.now) m i j (get_or result i 0) }
{
    let last = sample::last_marked(samples.marks, j);
    let mut levels = [m + 1; 256];
    for i in last..top {
        levels[i] = finest(samples, tolerances, m, i, j);
    }
    levels
}
