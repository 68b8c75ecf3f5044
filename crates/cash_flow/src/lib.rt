// Premium and outgo of a product group's years before discounting: a year's outgo and cap, and the
// years of a span from the group's year sums.
// Internal: the functions ask for an accepted book's ranges, which the calls above have from the
// check.
#![tactic(auto)]

ghost use Rattle.std.specs.Prelude.{◌≡◌, ◌≤◌, sum_by};
ghost use Rattle.book.specs.Reading.{ValidBook};
ghost use Rattle.settings_columns.specs.Columns.{projection_of};
ghost use Rattle.settings_outgo.specs.Outgoings.{OutgoWeighed};
ghost use Rattle.valuation.specs.Arithmetic.{rounded};
ghost use Rattle.valuation.specs.Steps.{capped};
ghost use Rattle.valuation.specs.Portfolio.{cost_rate_of};
ghost use Rattle.group_projection.specs.Added.{TableIn};
ghost use Rattle.cash_flow.specs.CashFlow.{outgo_of, Undiscounted};

use cell_projection::{A_YEAR, YearSums};
use settings_outgo::{Outgoings, Setting};

// The cost rate of a product group, in millionths of premium.
pub fn cost_rate_of(book: &[u8], group: usize) -> u64
    requires { (1 ≤ group)
        × (group ≤ 5)
        × ValidBook 1 book.now }
    ensures { (result ≡ cost_rate_of book.now group)
        × (result ≤ 1000000) }
{
    le_bytes::read_u32(book, book::COST_PLACE + 4 * (group - 1))
}

// The outgo of year k: weighted claims, and the cost of the premium before the cap.
pub fn outgo(w: Outgoings, k: usize, rate: u64, premium: u64, claims: u64) -> u64
    requires { OutgoWeighed w
        × (rate ≤ 1000000)
        × (premium ≤ 726000000000000)
        × (claims ≤ 726000000000000) }
    ensures { (result ≡ outgo_of w k rate premium claims)
        × (result ≤ 2000000000000000) }
{
    let held = w.at(k);
    claims * held.claims / 1000 + arith::share(premium, rate * held.costs)
}

// The premium that counts in year k: from the sixth year on at most ten ninths of the outgo.
pub fn counted(k: usize, premium: u64, outgo: u64) -> u64
    requires { outgo ≤ 2000000000000000 }
    ensures { (result ≡ capped rounded k premium outgo)
        × (result ≤ premium) }
{
    if k < 5 {
        return premium;
    }
    let cap = outgo * 10 / 9;
    if premium < cap { premium } else { cap }
}

// Premium and outgo, of one year or of some.
#[derive(Clone, Copy)]
pub struct Amounts {
    pub premium: u64,
    pub outgo: u64,
}

impl Amounts {
    pub const NONE: Amounts = Amounts {
        premium: 0,
        outgo: 0,
    };

    // Those of some years, added.
    pub fn total(years: &[Amounts]) -> Amounts
        requires { (sum_by (λ y. y.premium) years.now ≤ 450000000000000000)
            × (sum_by (λ y. y.outgo) years.now ≤ 450000000000000000) }
        ensures { (result.premium ≡ sum_by (λ y. y.premium) years.now)
            × (result.outgo ≡ sum_by (λ y. y.outgo) years.now) }
    {
        Amounts {
            premium: years.iter().map(|y| y.premium).sum(),
            outgo: years.iter().map(|y| y.outgo).sum(),
        }
    }
}

// Premium after the cap and outgo, year by year.
pub type Years = [Amounts; 50];

// The years from k = `from` to before k = `to`.
#[derive(Clone, Copy)]
pub struct Span {
    pub from: usize,
    pub to: usize,
}

// The years of a span, before discounting, in a setting: whoever values many groups makes it once.
pub fn undiscounted(book: &[u8], s: Setting, group: usize, numbers: &YearSums, span: Span) -> Years
    requires { (1 ≤ group)
        × (group ≤ 5)
        × (span.from ≤ span.to)
        × (span.to ≤ 50)
        × ValidBook 1 book.now
        × TableIn book.now (projection_of s.number) group numbers.now }
    ensures { Undiscounted book.now s.number group span.from span.to result }
{
    let from = span.from;
    let to = span.to;
    let setting = s.number;
    let projection = s.projection;
    let rate = cost_rate_of(book, group);
    let mut years = [Amounts::NONE; 50];
    for k in from..to {
        let j = A_YEAR * k + 2 * projection;
        let due = numbers[j];
        let spent = outgo(s.outgo, k, rate, due, numbers[j + 1]);
        years[k] = Amounts {
            premium: counted(k, due, spent),
            outgo: spent,
        };
    }
    years
}
