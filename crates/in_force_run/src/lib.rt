// What is in force of one cell, year by year, written into the caller's numbers.
// Internal: it asks for an accepted book, which the call above has from the check.
#![tactic(auto)]

ghost use Rattle.std.specs.Prelude.{◌≡◌, ◌++◌, ◌<◌, ◌≤◌, length, drop};
ghost use Rattle.lists.specs.Each.{each};
ghost use Rattle.book.specs.Reading.{Standing, ValidBook};
ghost use Rattle.settings_decrements.specs.Decrements.{decrements_of};
ghost use Rattle.settings_columns.specs.Columns.{survives_in, persists_in};
ghost use Rattle.valuation.specs.Arithmetic.{rounded};
ghost use Rattle.valuation.specs.Steps.{in_force};
ghost use Rattle.valuation.specs.Portfolio.{cell_of};
ghost use Rattle.cell.specs.States.{Ready, next_by};

use cell::Cell;
use rate_table::{COLUMNS, ROWS, RateTable};
use settings::ByPeriod;
use settings_columns::Columns;

// The state a year after year k. Once nothing is in force nothing is computed further: there is
// nothing in any later year.
fn year_later(rows: &RateTable, cell: Cell, columns: ByPeriod<Columns>, k: usize) -> Cell
    requires { Ready rows.now cell
        × (survives_in columns k ≤ 5)
        × (persists_in columns k ≤ 5) }
    ensures { result ≡ next_by rows.now (survives_in columns k) (persists_in columns k)
        cell }
{
    if cell.inforce == 0 {
        return Cell {
            row: cell.row + 1,
            inforce: 0,
        };
    }
    cell.next_year(rows, columns, k)
}

// Writes what is in force of the cell of record i in a setting, in the years k = 0 to 49.
pub fn run(book: &[u8], setting: usize, chain: usize, i: usize, out: &mut [u64])
    requires { (setting < 8)
        × ValidBook 1 book.now
        × (chain < 14)
        × Standing book.now 120 chain i
        × (50 ≤ length out.old) }
    ensures { out.new ≡ each
        (in_force rounded (cell_of book.now (decrements_of book.now setting) i))
        50 ++ drop 50 out.old }
{
    let columns = settings_columns::columns_of(setting);
    let mut rows = [0u64; ROWS * COLUMNS];
    let w = settings_decrements::shifts_of(book);
    chain_rows::read_rows(book, w, chain, i, &mut rows);
    let mut cell = Cell::new(0, book::field_of(book, i, book::COUNT_OFFSET));
    for k in 0usize..50 {
        let next = year_later(&rows, cell, columns, k);
        out[k] = cell.inforce;
        cell = next;
    }
}
