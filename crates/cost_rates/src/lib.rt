// Cost rates out of three years of accounts (FINMA 4.4.8): the call, and its reply.
#![tactic(auto)]

ghost use Rattle.std.specs.Prelude.{◌≡◌, []};
ghost use Rattle.verdict.specs.Verdicts.{refused};
ghost use Rattle.cost_rates.specs.Replies.{rates_reply_for, RatesContract};

use cost_rate_divisors::can_compute;
use cost_rate_limits::{all_at_most, within_limits};
use cost_rate_shares::{Accounts, BoundedAccounts, UsableAccounts};

// Refusal and place are 0 where the accounts are accepted, and every rate is 0 where they are
// refused. C has this struct as it is, so it is no `Result`.
#[repr(C)]
#[derive(Clone, Copy)]
pub struct CostRates {
    pub refusal: u64,
    pub place: usize,
    // PG1 to PG5, in millionths of premium
    pub rates: [u64; 5],
}

const HIGHEST_RATE: u64 = 1_000_000;

// A refusal, in the struct that C has.
fn refused(number: u64) -> CostRates
    ensures { result ≡ rates_reply_for (refused number 0) [] }
{
    CostRates {
        refusal: number,
        place: 0,
        rates: [0; 5],
    }
}

// The five cost rates out of the accounts, or the first refusal.
pub fn cost_rates(accounts: Accounts) -> CostRates
    ensures { RatesContract accounts result }
{
    if !within_limits(accounts) {
        return refused(17);
    }
    let bounded = BoundedAccounts { accounts };
    if !can_compute(bounded) {
        return refused(18);
    }
    let usable = UsableAccounts { accounts };
    let rates = usable.rates();
    if !all_at_most(HIGHEST_RATE, &rates, 5) {
        return refused(19);
    }
    CostRates {
        refusal: 0,
        place: 0,
        rates,
    }
}
