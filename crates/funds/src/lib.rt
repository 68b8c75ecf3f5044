// The call for two funds on the same tables: both replies, and both funds' eight totals in the
// caller's buffer. Neither fund's refusal holds back the other.
#![tactic(auto)]

ghost use Rattle.fund_definitions.specs.Funds.{FundsContract};

use fund_arguments::check_arguments;
use fund_definitions::FundsReply;
use fund_totals::value_fund;

// The first fund's totals come in numbers 0 to 7, the second's in 8 to 15; a refused fund's stay as
// they were.
pub fn funds(table: &[u8], first: &[u8], second: &[u8], numbers: &mut [i64]) -> FundsReply
    ensures { FundsContract table.now first.now second.now
        numbers.old numbers.new result }
{
    if let Err(refusal) = check_arguments(numbers.len(), table) {
        return FundsReply {
            first: Err(refusal),
            second: Err(refusal),
        };
    }
    let first_reply = value_fund(table, first, numbers, 0);
    let second_reply = value_fund(table, second, numbers, 8);
    FundsReply {
        first: first_reply,
        second: second_reply,
    }
}
