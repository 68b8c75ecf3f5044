// Count, lapse, premium and claims of a record within their ranges: refusal 12. The function asks
// for the record's bytes.
#![tactic(auto)]

ghost use Rattle.std.specs.Prelude.{◌≡◌, ◌+◌, ◌≤◌, length};
ghost use Rattle.book.specs.Check.{check_amounts};

use book::{
    CLAIMS_OFFSET, COUNT_OFFSET, LAPSE_OFFSET, MOST_AMOUNT, MOST_COUNT, MOST_RATE, PREMIUM_OFFSET,
};
use verdict::Verdict;

// Refusal 12 of the record that starts at a place.
#[tactic(auto, unfolding(book::specs::Check::check_amounts, verdict::specs::Verdicts::first_refusal))]
pub fn check_amounts(b: &[u8], at: usize) -> Verdict
    requires { at + 24 ≤ length b.now }
    ensures { result ≡ check_amounts b.now at }
{
    le_bytes::check_field(b, 12, 0, MOST_COUNT, at + COUNT_OFFSET)?;
    le_bytes::check_field(b, 12, 0, MOST_RATE, at + LAPSE_OFFSET)?;
    le_bytes::check_field(b, 12, 0, MOST_AMOUNT, at + PREMIUM_OFFSET)?;
    le_bytes::check_field(b, 12, 0, MOST_AMOUNT, at + CLAIMS_OFFSET)
}
