// One fund on the tables of a table file: its reply, and its eight totals in the caller's buffer.
// A fund is computed as the book that its file and the table file make together.
#![tactic(auto)]

ghost use Rattle.std.specs.Prelude.{◌≡◌, ◌++◌, ◌+◌, ◌≤◌, length, take, drop};
ghost use Rattle.book.specs.Layout.{most_size};
ghost use Rattle.valuation.specs.Totals.{TotalsContract};
ghost use Rattle.buffer.specs.Text.{Wrote};
ghost use Rattle.fund_definitions.specs.Fund.{front_size, table_size, joined_book};
ghost use Rattle.fund_definitions.specs.Valued.{FundValued};

use book::MOST_SIZE;
use buffer::put_bytes;
use fund_definitions::{FRONT_SIZE, TABLE_SIZE};
use valuation::TotalsReply;
use verdict::{Refusal, Verdict, need};

// Writes a fund's joined book from the start of the caller's buffer, and answers its length.
fn join(book: &mut [u8], table: &[u8], fund: &[u8]) -> usize
    requires { front_size ≤ length fund.now }
    ensures { Wrote book.old 0
        (joined_book table.now fund.now) book.new result }
{
    let table_at = put_bytes(book, 0, &fund[..FRONT_SIZE]);
    let records_at = put_bytes(book, table_at, table);
    put_bytes(book, records_at, &fund[FRONT_SIZE..])
}

// Totals of a fund's joined book, where it is no longer than a book can be.
fn joined_totals(table: &[u8], fund: &[u8]) -> TotalsReply
    requires { (front_size ≤ length fund.now)
        × (length fund.now + length table.now ≤ most_size) }
    ensures { TotalsContract (joined_book table.now fund.now) result }
{
    let mut book = book::input_buffer();
    let size = join(&mut book, table, fund);
    totals::totals(&book[..size])
}

// The eight totals, in the numbers from `at` on.
fn put_totals(numbers: &mut [i64], at: usize, totals: [i64; 8])
    requires { at + 8 ≤ length numbers.old }
    ensures { let before = numbers.old in
        numbers.new ≡ take at before ++ totals ++ drop (at + 8) before }
{
    numbers[at..at + 8].copy_from_slice(&totals);
}

// One fund: its reply, and its half in the eight numbers from `at` on.
pub fn value_fund(table: &[u8], fund: &[u8], numbers: &mut [i64], at: usize) -> Verdict
    requires { (16 ≤ length numbers.old)
        × (length table.now ≡ table_size)
        × (at + 8 ≤ length numbers.old) }
    ensures { FundValued table.now fund.now at numbers.old
        numbers.new result }
{
    need(FRONT_SIZE <= fund.len(), 1, fund.len())?;
    let size = fund.len() + TABLE_SIZE;
    // No book is so long: its header refuses it, and the fund file begins with the header.
    if MOST_SIZE < size {
        return book_check_header::check_header(fund, size, 1);
    }
    let reply = joined_totals(table, fund);
    if reply.refusal == 0 {
        let totals = reply.totals;
        put_totals(numbers, at, totals);
        return Ok(reply.n);
    }
    Err(Refusal {
        number: reply.refusal,
        place: reply.place,
    })
}
