// The draws of a start number as fields of a book: numbers and curve rates, put into a table, a
// curve and the four lists of records. The draws are taken once, in book order. The definitions are
// those of `practice_contents`.
#![tactic(auto)]

ghost use Rattle.std.specs.Prelude.{◌≡◌, ℕ, ◌+◌, ◌*◌, ◌≤◌, ◌<◌, length};
ghost use Rattle.book.specs.Layout.{most_count, most_rate, most_amount};
ghost use Rattle.generator.specs.Draws.{state_after, draw_at};
ghost use Rattle.practice_contents.specs.Drawn.{drawn_number, drawn_rate};
ghost use Rattle.lists.specs.Each.{each};

use book::{CURVE_LIFT, CURVE_SPAN, MOST_AMOUNT, MOST_COUNT, MOST_RATE, MOST_RECORDS};
use book_contents::ByKind;
use generator::GeneratorState;

// A field whose lowest value is 0, out of a draw.
fn drawn_number(span: u64, draw: u64) -> u64
    requires { span < 4294967296 }
    ensures { (result ≡ drawn_number span draw)
        × (result ≤ span) }
{
    draw % (span + 1)
}

// A curve rate out of a draw.
fn drawn_rate(draw: u64) -> i64
    ensures { result ≡ drawn_rate draw }
{
    signed::less(drawn_number(CURVE_SPAN, draw), CURVE_LIFT)
}

// Fills a table, a draw a number, and gives the words after it.
pub fn fill_table(list: &mut [u64], from: GeneratorState, span: u64) -> GeneratorState
    requires { span < 4294967296 }
    ensures { (result ≡ state_after from (length list.old))
        × (list.new ≡ each (λ (j : ℕ). drawn_number span (draw_at from j))
        (length list.old)) }
{
    let mut words = from;
    for number in list.iter_mut() {
        *number = drawn_number(span, words.next_draw());
    }
    words
}

// Beside `fill_table`: a function for both would take the field as a closure, and what it asks and
// promises of the closure is longer than the loop.
pub fn fill_curve(curve: &mut [i64], from: GeneratorState) -> GeneratorState
    ensures { (result ≡ state_after from (length curve.old))
        × (curve.new ≡ each (λ (j : ℕ). drawn_rate (draw_at from j))
        (length curve.old)) }
{
    let mut words = from;
    for rate in curve.iter_mut() {
        *rate = drawn_rate(words.next_draw());
    }
    words
}

// Fills the four lists together, a record's four draws one after the other. They are four lists,
// and not one of records, since `xaropinto_write` takes them so.
pub fn fill_lists(lists: &mut ByKind<[u64; MOST_RECORDS]>, from: GeneratorState)
    ensures { (lists.new.counts
        ≡ each (λ (i : ℕ). drawn_number most_count (draw_at from (4 * i))) 1694)
        × (lists.new.lapses
        ≡ each (λ (i : ℕ). drawn_number most_rate (draw_at from (4 * i + 1))) 1694)
        × (lists.new.premiums
        ≡ each (λ (i : ℕ). drawn_number most_amount (draw_at from (4 * i + 2))) 1694)
        × (lists.new.claims
        ≡ each (λ (i : ℕ). drawn_number most_amount (draw_at from (4 * i + 3))) 1694) }
{
    let mut words = from;
    for i in 0..MOST_RECORDS {
        lists.counts[i] = drawn_number(MOST_COUNT, words.next_draw());
        lists.lapses[i] = drawn_number(MOST_RATE, words.next_draw());
        lists.premiums[i] = drawn_number(MOST_AMOUNT, words.next_draw());
        lists.claims[i] = drawn_number(MOST_AMOUNT, words.next_draw());
    }
}
