// The limits of the figures of accounts: refusal 17.
#![tactic(auto)]

ghost use Rattle.std.specs.Prelude.{◌≡◌, ◌≤◌, length};
ghost use Rattle.cost_rate_limits.specs.Limits.{all_at_most, within_limits};

use cost_rate_shares::Accounts;

const HIGHEST_AMOUNT: u64 = 1_000_000_000;

const HIGHEST_STOCK: u64 = 10_000_000;

// Whether none of the first count figures is above the limit.
pub fn all_at_most(limit: u64, figures: &[u64], count: usize) -> bool
    requires { count ≤ length figures.now }
    ensures { result ≡ all_at_most limit figures.now count }
{
    figures[..count].iter().all(|figure| *figure <= limit)
}

// 17 looks at every figure, before any is used.
pub fn within_limits(accounts: Accounts) -> bool
    ensures { result ≡ within_limits accounts }
{
    all_at_most(HIGHEST_AMOUNT, &accounts.expenses, 3)
        & all_at_most(HIGHEST_STOCK, &accounts.stock, 15)
        & all_at_most(HIGHEST_AMOUNT, &accounts.claims, 15)
        & all_at_most(HIGHEST_AMOUNT, &accounts.premium, 15)
}
