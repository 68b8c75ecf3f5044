// What a check answers: a count, or the first rule that is broken.
#![tactic(auto)]

ghost use Rattle.std.specs.Prelude.{◌≡◌};
ghost use Rattle.verdict.specs.Verdicts.{need};

// The number of the rule that is broken, and the byte place where it is. A number and no enum: C
// and the documents know a rule by its number, and `verdict_in` goes back from it to a refusal.
#[derive(Clone, Copy, PartialEq, Eq)]
pub struct Refusal {
    pub number: u64,
    pub place: usize,
}

// What a check says: accepted with a count, or refused.
pub type Verdict = Result<u64, Refusal>;

// Refused with the number and the place, unless the test holds.
pub fn need(holds: bool, number: u64, place: usize) -> Verdict
    ensures { result ≡ need holds number place }
{
    if holds {
        Ok(0)
    } else {
        Err(Refusal { number, place })
    }
}
