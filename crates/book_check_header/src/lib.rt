// What stands before a book's records: refusals 2 to 8 and 23, of the header and of the tables.
// The functions ask for the bytes that they read: they are for the check, which has shown that they
// are there.
#![tactic(auto)]

ghost use Rattle.std.specs.Prelude.{◌≡◌, ◌≤◌, length};
ghost use Rattle.book.specs.Layout.{header_size};
ghost use Rattle.book.specs.Check.{check_spare, check_percents, check_by_edition, check_header};
ghost use Rattle.book.specs.Check.{check_tables};

use book::{
    COST_PLACE, CURVE_LIFT, CURVE_PLACE, CURVE_SPAN, FIRST_YEAR, HEADER_SIZE, LAST_YEAR,
    MORTALITY_PLACE, MOST_PERCENT, MOST_RATE, MOST_RECORDS, PERCENT_PLACE, RECORD_SIZE,
};
use verdict::{Verdict, need};

// Refusal 4, of the spare bytes of edition 1.
#[tactic(auto, unfolding(book::specs::Check::check_spare))]
fn check_spare(b: &[u8]) -> Verdict
    requires { header_size ≤ length b.now }
    ensures { result ≡ check_spare b.now }
{
    need(le_bytes::read_u16(b, 6) == 0, 4, 6)
}

// Refusal 23, of the percentages of edition 2.
#[tactic(auto, unfolding(book::specs::Check::check_percents, verdict::specs::Verdicts::first_refusal))]
fn check_percents(b: &[u8]) -> Verdict
    requires { header_size ≤ length b.now }
    ensures { result ≡ check_percents b.now }
{
    let men = le_bytes::within(1, MOST_PERCENT, book::percent_at(b, 0));
    let women = le_bytes::within(1, MOST_PERCENT, book::percent_at(b, 1));
    need(men, 23, PERCENT_PLACE)?;
    need(women, 23, PERCENT_PLACE + 1)
}

// Refusal 4 or 23, of bytes 6 and 7 as the edition has them.
#[tactic(auto, unfolding(book::specs::Check::check_by_edition))]
fn check_by_edition(b: &[u8]) -> Verdict
    requires { header_size ≤ length b.now }
    ensures { result ≡ check_by_edition b.now }
{
    if book::edition(b) == 2 {
        check_percents(b)
    } else {
        check_spare(b)
    }
}

// Refusals 2 to 5, and 23, of a book of `size` bytes that begins with these.
#[tactic(auto, unfolding(book::specs::Check::check_header, verdict::specs::Verdicts::first_refusal))]
pub fn check_header(b: &[u8], size: usize, basis: usize) -> Verdict
    requires { header_size ≤ length b.now }
    ensures { result ≡ check_header basis size b.now }
{
    let edition = book::edition(b);
    let age_basis = le_bytes::read_u8(b, 1);
    let year = le_bytes::read_u16(b, 2);
    let count = book::records(b);
    need(le_bytes::within(1, 2, edition), 2, 0)?;
    need(age_basis == basis, 3, 1)?;
    need(le_bytes::within(FIRST_YEAR, LAST_YEAR, year), 4, 2)?;
    need(count <= MOST_RECORDS, 4, 4)?;
    check_by_edition(b)?;
    need(size == HEADER_SIZE + RECORD_SIZE * count, 5, size)
}

// Refusals 6 to 8.
#[tactic(auto, unfolding(book::specs::Check::check_tables, verdict::specs::Verdicts::first_refusal))]
pub fn check_tables(b: &[u8]) -> Verdict
    requires { header_size ≤ length b.now }
    ensures { result ≡ check_tables b.now }
{
    le_bytes::check_fields(b, 6, 0, MOST_RATE, COST_PLACE, 5)?;
    le_bytes::check_fields(b, 7, CURVE_LIFT, CURVE_SPAN, CURVE_PLACE, 49)?;
    le_bytes::check_fields(b, 8, 0, MOST_RATE, MORTALITY_PLACE, 242)
}
