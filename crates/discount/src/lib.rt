// The amounts of the years discounted, each with the divisor of its year: a year's step, and the
// steps of all years.
// Internal: the functions ask for an accepted book's ranges, which the calls above have from the
// check.
#![tactic(auto)]

ghost use Rattle.std.specs.Prelude.{◌≡◌, ◌*◌, ◌/◌, ◌<◌, ◌≤◌, get_or, set};
ghost use Rattle.lists.specs.AtMost.{AtMost};
ghost use Rattle.cash_flow.specs.CashFlow.{premiums, outgoes};
ghost use Rattle.discount.specs.Discount.{divisors, Stepped, DiscountedIn};

mod curve;

use cash_flow::Years;
pub use curve::{Curve, YearDivisor};

// One step on premium and outgo of year k, at the divisor of that year.
fn step_year(curve: &Curve, k: usize, years: &mut Years)
    requires { (k < 50)
        × (get_or (premiums years.old) k 0 ≤ 10000000000000000)
        × (get_or (outgoes years.old) k 0 ≤ 10000000000000000) }
    ensures premium_after { premiums years.new ≡ set (premiums years.old) k
        (get_or (premiums years.old) k 0 * 1000000 / get_or (divisors curve.now) k 0) }
    ensures outgo_after { outgoes years.new ≡ set (outgoes years.old) k
        (get_or (outgoes years.old) k 0 * 1000000 / get_or (divisors curve.now) k 0) }
{
    years[k] = curve[k].back(years[k]);
}

// One step on the amounts of the years from `from` to before `to`. No step waits for another. Two
// years a turn, which was measured to cost less, and a last one alone where their number is odd.
fn step_years(curve: &Curve, from: usize, to: usize, years: &mut Years)
    requires { (from ≤ to)
        × (to ≤ 50)
        × AtMost 10000000000000000 to (premiums years.old)
        × AtMost 10000000000000000 to (outgoes years.old) }
    ensures { Stepped (divisors curve.now) from to (premiums years.old)
        (premiums years.new)
        × Stepped (divisors curve.now) from to (outgoes years.old) (outgoes years.new) }
{
    let mut k = from;
    while k + 1 < to {
        step_year(curve, k, years);
        step_year(curve, k + 1, years);
        k += 2;
    }
    if k < to {
        step_year(curve, k, years);
    }
}

// The amounts of the years before `to`, each discounted for j years with the divisor of its year,
// or for its own number of years where that is less: one step on the amounts discounted for one
// year less.
pub fn discount(curve: &Curve, j: usize, to: usize, years: &mut Years)
    requires { (j < to)
        × (to ≤ 50)
        × AtMost 4000000000000000 to (premiums years.old)
        × AtMost 4000000000000000 to (outgoes years.old) }
    ensures { DiscountedIn (divisors curve.now) j to (premiums years.old)
        (premiums years.new)
        × DiscountedIn (divisors curve.now) j to (outgoes years.old) (outgoes years.new) }
{
    if j == 0 {
        return;
    }
    discount(curve, j - 1, to, years);
    step_years(curve, j, to, years);
}
