// What is tested for both funds before either is computed: refusals 16 and 24.
#![tactic(auto)]

ghost use Rattle.std.specs.Prelude.{◌≡◌};
ghost use Rattle.fund_definitions.specs.Fund.{check_lent};

use fund_definitions::TABLE_SIZE;
use verdict::{Verdict, need};

// The caller's numbers have room for both funds' totals, and the table file has its size.
#[tactic(auto, unfolding(fund_definitions::specs::Fund::check_lent, verdict::specs::Verdicts::first_refusal))]
pub fn check_arguments(count: usize, table: &[u8]) -> Verdict
    ensures { result ≡ check_lent count table.now }
{
    need(16 <= count, 16, 0)?;
    need(table.len() == TABLE_SIZE, 24, 0)
}
