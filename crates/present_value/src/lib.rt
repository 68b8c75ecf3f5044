// The fifty years of a product group valued: its liability and its year table from its year sums.
// Internal: it asks for an accepted book, which the calls above have from the check.
#![tactic(auto)]

ghost use Rattle.std.specs.Prelude.{◌≡◌, ◌++◌, ◌+◌, ◌*◌, ◌≤◌, length, take, drop};
ghost use Rattle.book.specs.Reading.{ValidBook};
ghost use Rattle.settings_columns.specs.Columns.{projection_of};
ghost use Rattle.group_projection.specs.Added.{TableIn};
ghost use Rattle.present_value.specs.Outcome.{four_of, GroupValued};

use cash_flow::{Amounts, Span};
use cell_projection::YearSums;
use settings_outgo::Setting;

// The numbers of one year: premium after cap, outgo, and both discounted.
#[derive(Clone, Copy)]
pub struct Year {
    pub premium: u64,
    pub outgo: u64,
    pub discounted_premium: u64,
    pub discounted_outgo: u64,
}

// Writes a year's numbers to its place in the table.
pub fn put_year(table: &mut [u64], k: usize, y: Year)
    requires { 4 * k + 4 ≤ length table.old }
    ensures { table.new ≡ take (4 * k) table.old ++
        (four_of y ++ drop (4 * k + 4) table.old) }
{
    table[4 * k..4 * k + 4].copy_from_slice(&[
        y.premium,
        y.outgo,
        y.discounted_premium,
        y.discounted_outgo,
    ]);
}

// The liability of a product group from its year sums; the first 200 numbers of the table become
// the fifty years'.
pub fn value_group(
    book: &[u8],
    s: Setting,
    group: usize,
    numbers: &YearSums,
    table: &mut [u64],
) -> i64
    requires { (1 ≤ group)
        × (group ≤ 5)
        × (200 ≤ length table.old)
        × ValidBook 1 book.now
        × TableIn book.now (projection_of s.number) group numbers.now }
    ensures { GroupValued book.now s.number group table.old
        table.new result }
{
    let curve = discount_curve::curve_of(book);
    let setting = s.number;
    let years = cash_flow::undiscounted(book, s, group, numbers, Span { from: 0, to: 50 });
    let mut back = years;
    discount::discount(&curve, 49, 50, &mut back);
    // By number: of a table's chunks, once lent to be written, a proof knows no element.
    for k in 0usize..50 {
        let y = Year {
            premium: years[k].premium,
            outgo: years[k].outgo,
            discounted_premium: back[k].premium,
            discounted_outgo: back[k].outgo,
        };
        put_year(table, k, y);
    }
    let total = Amounts::total(&back);
    signed::less(total.outgo, total.premium)
}
