// answers: the line of each call's answer, for the test programs. A line that a digest ends is written up to it; the program
// adds the digest.
#![tactic(auto)]

ghost use Rattle.std.specs.Prelude.{◌≡◌};
ghost use Rattle.answers.specs.Digest.{has_digest};

use geometry::Verdict;
use record::Decoded;
use refusal::{Refusal, number};
use script::say::Spaced;
use std::fmt;
use trace::{Changed, Levels, Started, Trace, Uploaded};

// What a call answered.
#[derive(Clone, Copy)]
pub enum Answer {
    Started(Started),
    Asked(Result<Verdict, Refusal>),
    Levels(Levels),
    Decoded(Decoded),
    Changed(Changed),
    Uploaded(Uploaded),
}

impl Answer {
    // Whether a digest ends its line.
    pub fn has_digest(&self) -> bool
        ensures { result ≡ has_digest self.now }
    {
        matches!(
            self,
            Answer::Levels(_) | Answer::Changed(_) | Answer::Uploaded(_)
        )
    }
}

// start: f m N n t1..t16
// ask: f a q
// read: f total c1..c16
// decode: f across up pause rank boot edition
// put: f cells n
// upload: f added cells n
impl fmt::Display for Answer {
    fn fmt<W: fmt::Write>(&self, f: &mut fmt::Formatter<W>) -> fmt::Result {
        match *self {
            Answer::Started(a) => {
                let code = number(a.outcome);
                let Trace {
                    levels,
                    capacity,
                    held,
                    tolerances,
                } = a.trace;
                write!(f, "{code} {levels} {capacity} {held}{}", Spaced(tolerances))
            }
            Answer::Asked(Ok(Verdict::Yes)) => write!(f, "0 1 -"),
            Answer::Asked(Ok(Verdict::No(spoiler))) => write!(f, "0 0 {spoiler}"),
            Answer::Asked(Err(why)) => write!(f, "{} - -", why.number()),
            Answer::Levels(a) => {
                let segments = a.segments;
                write!(f, "{} {}{}", number(a.outcome), a.total, Spaced(segments))
            }
            Answer::Decoded(a) => {
                write!(f, "{} {} {} ", number(a.outcome), a.across, a.up)?;
                write!(f, "{} {} {} {}", a.pause, a.rank, a.boot, a.edition)
            }
            Answer::Changed(a) => write!(f, "{} {} {}", number(a.outcome), a.cells, a.trace.held),
            Answer::Uploaded(a) => {
                write!(f, "{} {} {} ", number(a.stop), a.added, a.cells)?;
                write!(f, "{}", a.trace.held)
            }
        }
    }
}
