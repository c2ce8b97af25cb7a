// Why a call was refused, and the paper's number of each answer.
#![tactic(auto)]

ghost use Rattle.std.specs.Prelude.{◌≡◌};
ghost use Rattle.refusal.specs.Number.{number as number_of, code};
ghost use Rattle.refusal.specs.Check.{unless as unless_of};

// Each with the paper's number.
#[derive(Clone, Copy, PartialEq, Eq)]
pub enum Refusal {
    Setup = 1,
    Tolerance = 2,
    Buffer = 3,
    Held = 4,
    Stored = 5,
    Coordinate = 6,
    Full = 7,
    Missing = 8,
    Few = 9,
    Length = 10,
    Record = 11,
}

// A call or a check: carried out, or refused.
pub type Outcome = Result<(), Refusal>;

impl Refusal {
    // The paper's number.
    pub fn number(self) -> u8
        ensures { result ≡ number_of self }
    {
        self as u8
    }
}

// The paper's number of a refusal, 0 where the call was carried out.
pub fn number(o: Outcome) -> u8
    ensures { result ≡ code o }
{
    match o {
        Ok(()) => 0,
        Err(why) => why.number(),
    }
}

// One test of a row: refused unless it holds.
pub fn unless(ok: bool, why: Refusal) -> Outcome
    ensures { result ≡ unless_of ok why }
{
    if ok { Ok(()) } else { Err(why) }
}
