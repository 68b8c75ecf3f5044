// The call that writes a practice book: values and lists drawn from a start number, and Write's
// book of them. The definitions are in specs/Practice, those of the contents in
// `practice_contents`.
#![tactic(auto)]

ghost use Rattle.book_contents.specs.CallContracts.{WriteContract};
ghost use Rattle.practice_contents.specs.Drawn.{practice_contents};
ghost use Rattle.practice_book.specs.Practice.{PracticeContract};

use book::{MOST_RATE, MOST_RECORDS};
use book_contents::{ByKind, Values, WriteReply};
use generator::GeneratorState;
use practice_draws::{fill_curve, fill_lists, fill_table};
use verdict::need;

// How long every practice book is.
const SIZE: usize = 41_876;

// Write of what is drawn.
fn write_drawn(start: u64, out: &mut [u8]) -> WriteReply
    ensures { WriteContract (practice_contents start) out.old out.new
        result }
{
    let seeded = GeneratorState {
        word: start,
        counter: 0,
    };
    let mut cost = [0u64; 5];
    let costs_drawn = fill_table(&mut cost, seeded, MOST_RATE);
    let mut curve = [0i64; 49];
    let curve_drawn = fill_curve(&mut curve, costs_drawn);
    let mut mortality = [0u64; 242];
    let tables_drawn = fill_table(&mut mortality, curve_drawn, MOST_RATE);
    let mut lists = ByKind {
        counts: [0; MOST_RECORDS],
        lapses: [0; MOST_RECORDS],
        premiums: [0; MOST_RECORDS],
        claims: [0; MOST_RECORDS],
    };
    fill_lists(&mut lists, tables_drawn);
    let values = Values {
        edition: 1,
        men: 0,
        women: 0,
        year: 2021,
        cost,
        curve,
        mortality,
        first: [0; 14],
    };
    book_write::write(
        values,
        &lists.counts,
        &lists.lapses,
        &lists.premiums,
        &lists.claims,
        out,
    )
}

// Writes the practice book of a start number, and answers its length. Refused, with nothing
// written, where the buffer is shorter than the book, and then where the start number is 0.
pub fn practice(start: u64, out: &mut [u8]) -> WriteReply
    ensures { PracticeContract start out.old out.new result }
{
    need(SIZE <= out.len(), 16, 0)?;
    need(0 < start, 32, 0)?;
    write_drawn(start, out)
}
