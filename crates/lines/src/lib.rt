// The lines of a day's text: of a refusal, of the counts, of the samples with their ranks, of the segments and of the pauses.
#![tactic(auto)]

ghost use Rattle.std.specs.Prelude.{◌∷◌, ◌≤◌, length, get_or};
ghost use Rattle.refusal.specs.Number.{code};
ghost use Rattle.text.specs.Text.{Written, signed_decimal};
ghost use Rattle.text.specs.Writes.{Writes};
ghost use Rattle.lines.specs.Lines.{refused_line, counts_line, sample_line, counted_line, pause_text};
ghost use Rattle.lines.specs.Held.{held_lines, held_text};

use refusal::Outcome;
use text::Text;

// The levels of a day.
pub const LEVELS: usize = 3;

// The line of a refused file.
pub fn refused_line(out: &mut [u8], why: Outcome) -> usize
    ensures { Written out.old 0 (refused_line (code why)) out.new result }
{
    let mut text = Text { out, at: 0 };
    text.labelled(b"refused ", refusal::number(why) as u64);
    text.byte(b'\n');
    text.at
}

// The line with sample and level counts.
fn counts_line(text: &mut Text<'_>, samples: usize)
    ensures { Writes text.old (counts_line samples) text.new }
{
    text.labelled(b"samples ", samples as u64);
    text.labelled(b" levels ", LEVELS as u64);
    text.byte(b'\n');
}

// A coordinate after a space.
fn coordinate(text: &mut Text<'_>, z: i16)
    ensures { Writes text.old (32 ∷ signed_decimal z) text.new }
{
    text.byte(b' ');
    text.signed(z);
}

// The line of sample i: its number, across, up, rank.
fn sample_line(text: &mut Text<'_>, i: usize, x: i16, y: i16, rank: u8)
    ensures { Writes text.old (sample_line i x y rank) text.new }
{
    text.number(i as u64);
    coordinate(text, x);
    coordinate(text, y);
    text.labelled(b" ", rank as u64);
    text.byte(b'\n');
}

// The lines of the first n samples.
fn sample_lines(text: &mut Text<'_>, xs: &[i16], ys: &[i16], ranks: &[u8], n: usize)
    requires { (n ≤ length xs.now) × (n ≤ length ys.now) × (n ≤ length ranks.now) }
    ensures { Writes text.old (held_lines xs.now ys.now ranks.now n) text.new }
{
    for i in 0..n {
        sample_line(text, i, xs[i], ys[i], ranks[i]);
    }
}

// The line of segments: the total, and the count of each level.
fn segments_line(text: &mut Text<'_>, total: u32, segments: [u16; 16])
    ensures { Writes text.old (counted_line total (get_or segments 0 0) (get_or segments 1 0) (get_or segments 2 0)) text.new }
{
    let [fine, middle, coarse, ..] = segments;
    text.labelled(b"segments ", total as u64);
    text.labelled(b" ", fine as u64);
    text.labelled(b" ", middle as u64);
    text.labelled(b" ", coarse as u64);
    text.byte(b'\n');
}

// The line of the pauses.
fn pause_line(text: &mut Text<'_>, sum: u64)
    ensures { Writes text.old (pause_text sum) text.new }
{
    text.labelled(b"pause ", sum);
    text.byte(b'\n');
}

// The text of n samples with their ranks, of the levels' segments and of the pauses.
pub fn levels_text(
    out: &mut [u8],
    n: usize,
    xs: &[i16],
    ys: &[i16],
    ranks: &[u8],
    total: u32,
    segments: [u16; 16],
    sum: u64,
) -> usize
    requires { (n ≤ length xs.now) × (n ≤ length ys.now) × (n ≤ length ranks.now) }
    ensures { Written out.old 0
        (held_text xs.now ys.now ranks.now n total segments sum) out.new result }
{
    let mut text = Text { out, at: 0 };
    counts_line(&mut text, n);
    sample_lines(&mut text, xs, ys, ranks, n);
    segments_line(&mut text, total, segments);
    pause_line(&mut text, sum);
    text.at
}
