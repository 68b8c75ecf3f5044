// What some years of a product group give, discounted.
// Internal: it asks for an accepted book, which the calls above have from the check.
#![tactic(auto)]

ghost use Rattle.std.specs.Prelude.{◌≤◌};
ghost use Rattle.book.specs.Reading.{ValidBook};
ghost use Rattle.settings_columns.specs.Columns.{projection_of};
ghost use Rattle.group_projection.specs.Added.{TableIn};
ghost use Rattle.cash_flow.specs.CashFlow.{premiums, outgoes};
ghost use Rattle.discount_curve.specs.Curve.{CurveOf};
ghost use Rattle.present_value_span.specs.Spans.{NoneFrom, AmountsIn};

use cash_flow::{Amounts, Span, Years};
use cell_projection::YearSums;
use discount::Curve;
use settings_outgo::Setting;

// The end of the years that have an amount, among those from `from` to before `to`: later ones have
// none, which no year's discounting changes.
fn end_of(years: &Years, from: usize, to: usize) -> usize
    requires { (from ≤ to)
        × (to ≤ 50) }
    ensures { NoneFrom (premiums years.now) (outgoes years.now) from to result }
{
    for k in (from..to).rev() {
        if 0 < years[k].premium || 0 < years[k].outgo {
            return k + 1;
        }
    }
    from
}

// What the years of a span give.
pub fn amounts_in(
    book: &[u8],
    curve: &Curve,
    s: Setting,
    group: usize,
    numbers: &YearSums,
    span: Span,
) -> Amounts
    requires table_in { (1 ≤ group)
        × (group ≤ 5)
        × (span.from ≤ span.to)
        × (span.to ≤ 50)
        × ValidBook 1 book.now
        × TableIn book.now (projection_of s.number) group numbers.now }
    requires curve_of { CurveOf book.now curve.now }
    ensures { AmountsIn book.now s.number group span.from span.to result }
{
    let from = span.from;
    let mut years = cash_flow::undiscounted(book, s, group, numbers, span);
    let end = end_of(&years, from, span.to);
    if end == 0 {
        return Amounts::NONE;
    }
    discount::discount(curve, end - 1, end, &mut years);
    Amounts::total(&years[from..end])
}
