// Whether all that shares and rates are divided by is above zero: refusal 18.
#![tactic(auto)]

ghost use Rattle.std.specs.Prelude.{◌≡◌, ◌<◌};
ghost use Rattle.conditions.specs.Every.{every};
ghost use Rattle.cost_rate_divisors.specs.Divisors.{can_split, is_paid, can_compute};

use cost_rate_shares::{BoundedAccounts, Figures};

// Whether each year's expenses can be split by these figures.
fn can_split(split: Figures) -> bool
    ensures { result ≡ can_split split.figures }
{
    (0usize..3).all(|year| split.year_sum(year) > 0)
}

// An empty group needs no premium, any other needs some in each of the three years.
fn is_paid(bounded: BoundedAccounts, group: usize) -> bool
    requires { group < 5 }
    ensures { result ≡ is_paid bounded.accounts group }
{
    let premium = bounded.premium();
    bounded.is_empty(group) | (0usize..3).all(|year| premium.at(year, group) > 0)
}

fn all_paid(bounded: BoundedAccounts) -> bool
    ensures { result ≡ every (is_paid bounded.accounts) 5 }
{
    (0usize..5).all(|group| is_paid(bounded, group))
}

// 18 looks at what shares and rates are divided by.
pub fn can_compute(bounded: BoundedAccounts) -> bool
    ensures { result ≡ can_compute bounded.accounts }
{
    can_split(bounded.stock()) & can_split(bounded.claims()) & all_paid(bounded)
}
