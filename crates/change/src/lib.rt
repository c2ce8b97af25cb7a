// One sample made another, with the cells of the stretches with it.
#![tactic(auto)]

ghost use Rattle.sample.specs.Samples.{samples};
ghost use Rattle.change.specs.Change.{Ready, Changes};

use sample::{Lent, Sample};
use sizes::Sizes;

// Make sample v this one, of the samples then held, and rewrite the cells of the stretches with it; how many they are.
pub fn change(
    s: Sizes,
    xs: &mut [i16],
    ys: &mut [i16],
    marks: &mut [u8],
    table: &mut [u16],
    v: usize,
    sample: Sample,
) -> usize
    requires { Ready s (samples xs.old ys.old marks.old) table.old v sample }
    ensures { Changes s (samples xs.old ys.old marks.old) table.old v sample result (samples xs.new ys.new marks.new) table.new }
{
    xs[v] = sample.across;
    ys[v] = sample.up;
    marks[v] = sample.mark;
    let samples = Lent {
        across: xs,
        up: ys,
        marks,
    };
    costs::rewrite(table, samples, s, v)
}
