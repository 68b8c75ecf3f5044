// The rows of a chain, read once for all settings: a row of the table for each linked record, and
// the last one again for the years that follow.
// Internal: the functions ask for an accepted book's rules, which the calls above have from the
// check.
#![tactic(auto)]

ghost use Rattle.std.specs.Prelude.{◌-◌, ◌*◌, ◌<◌, ◌≤◌, length};
ghost use Rattle.book.specs.Layout.{class_of};
ghost use Rattle.book.specs.Reading.{Standing, ValidBook};
ghost use Rattle.settings_decrements.specs.Decrements.{ShiftsOf};
ghost use Rattle.rate_table.specs.Rows.{RowsOf};
ghost use Rattle.chain_rows.specs.Chain.{RowsBelow, Repeated};

use rate_row::{Link, put_row};
use rate_table::{COLUMNS, ROWS, RateTable};
use settings_decrements::Shifts;

// Reads the linked records from record i on, a row for each.
fn read_links(book: &[u8], w: Shifts, chain: usize, i: usize, rows: &mut RateTable)
    requires { ShiftsOf book.now w
        × ValidBook 1 book.now
        × (chain < 14)
        × Standing book.now 120 chain i }
    ensures { RowsBelow book.now chain i rows.new
        (121 - class_of book.now i) }
{
    let mut row = i;
    let mut class = book::class_of(book, i);
    let to = 121 - class;
    for r in 0usize..to {
        let link = Link {
            chain,
            number: row,
            class,
        };
        put_row(book, w, link, r, rows);
        if class < book::LAST_CLASS {
            row = book::next_of(book, row);
            class = class + 1;
        }
    }
}

// Copies the row before row `from` to the rows up to before row `to`.
fn repeat_row(rows: &mut [u64], from: usize, to: usize)
    requires { (1 ≤ from)
        × (from ≤ to)
        × (16 * to ≤ length rows.old) }
    ensures { Repeated rows.old rows.new (16 * from) (16 * to) }
{
    for j in COLUMNS * from..COLUMNS * to {
        rows[j] = rows[j - COLUMNS];
    }
}

// Reads the chain from record i on into the table, row by row. At the last class the same record
// holds for all later years.
pub fn read_rows(book: &[u8], w: Shifts, chain: usize, i: usize, rows: &mut RateTable)
    requires { ShiftsOf book.now w
        × ValidBook 1 book.now
        × (chain < 14)
        × Standing book.now 120 chain i }
    ensures { RowsOf book.now chain i rows.new }
{
    let class = book::class_of(book, i);
    read_links(book, w, chain, i, rows);
    repeat_row(rows, 121 - class, ROWS - class);
}
