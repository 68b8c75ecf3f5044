// The years of a book in a setting, for its report: the year tables of the five product groups, and
// how many bytes their report has.
#![tactic(auto)]

ghost use Rattle.std.specs.Prelude.{◌<◌};
ghost use Rattle.book.specs.Reading.{ValidBook};
ghost use Rattle.report_text.specs.Tables.{Years, Measures};
ghost use Rattle.report_years.specs.Asked.{Asked};

use cash_flow::Span;
use cell_projection::{A_YEAR, YEARS};
use rate_table::{COLUMNS, ROWS};
use report_text::{Measured, YearTable};
use settings_decrements::Shifts;
use settings_outgo::Setting;

// Nothing is discounted: the report has the amounts as they fall due.
fn year_table(book: &[u8], s: Setting, w: Shifts, group: usize) -> YearTable
    requires { Asked book.now w group }
    ensures { Years book.now s.number group result.years }
{
    let mut rows = [0u64; ROWS * COLUMNS];
    let mut sums = [0u64; YEARS * A_YEAR];
    group_projection::group_sums(book, w, group, Some(s.projection), &mut rows, &mut sums);
    let years = cash_flow::undiscounted(book, s, group, &sums, Span { from: 0, to: 50 });
    let premium = years.map(|y| y.premium);
    let outgo = years.map(|y| y.outgo);
    report_text::placed(&premium, &outgo)
}

// No text is built: the lengths of the lines are counted.
pub fn measured_years(book: &[u8], setting: usize) -> Measured
    requires { (setting < 8)
        × ValidBook 1 book.now }
    ensures { Measures book.now setting result }
{
    let s = Setting::new(setting);
    let w = settings_decrements::shifts_of(book);
    let mut years = Measured {
        tables: [YearTable::EMPTY; 5],
        bytes: 25,
    };
    for j in 0usize..5 {
        let table = year_table(book, s, w, j + 1);
        years.bytes = years.bytes + report_lines::lines_length(j as u64 + 1, table.years);
        years.tables[j] = table;
    }
    years
}
