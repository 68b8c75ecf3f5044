// The check of a book: for any bytes whatever, accepted with n, or the first rule broken and the
// place where it is broken.
// Its definition is book/specs/Check, and the functions here and in `book_check_header` and
// `book_check_records` read in its order.
#![tactic(auto)]

ghost use Rattle.std.specs.Prelude.{◌≡◌, ◌-◌, ◌≤◌, ◌<◌};
ghost use Rattle.book.specs.Layout.{records};
ghost use Rattle.book.specs.Check.{check_from, check_chain, check_chains, check_book};
ghost use Rattle.book.specs.Reading.{Sized};

use book::{CHAINS, HEADER_SIZE};
use verdict::{Verdict, need};

// Chain k from record `from` on, with left classes above that record's.
fn check_from(b: &[u8], last: usize, k: usize, left: usize, from: usize) -> Verdict
    requires { (k < 14)
        × (left ≤ last)
        × (120 ≤ last)
        × (last ≤ 121)
        × (0 < from)
        × (from ≤ records b.now)
        × Sized b.now }
    ensures { result ≡ check_from b.now last k left from }
{
    // It follows links that are checked one by one: an iterator of them would be no plainer.
    let mut i = from;
    let mut above = left;
    let mut n: u64 = 0;
    loop {
        book_check_records::check_link(b, last, k, above, i)?;
        n += book::holds(b, i);
        if above == 0 {
            return Ok(n);
        }
        i = book::next_of(b, i);
        above -= 1;
    }
}

// How many classes lie above a class, none from the last on.
fn classes_above(last: usize, class: usize) -> usize
    ensures { (result ≡ last - class)
        × (result ≤ last) }
{
    if class < last { last - class } else { 0 }
}

// Chain k from its head: refusals 9 to 13, and 21.
#[tactic(auto, unfolding(book::specs::Check::check_chain, verdict::specs::Verdicts::need, verdict::specs::Verdicts::first_refusal))]
fn check_chain(b: &[u8], last: usize, k: usize) -> Verdict
    requires { (k < 14)
        × (120 ≤ last)
        × (last ≤ 121)
        × Sized b.now }
    ensures { result ≡ check_chain b.now last k }
{
    let count = book::records(b);
    let head = book::head_of(b, k);
    if head == 0 {
        return Ok(0);
    }
    need(head <= count, 9, book::HEADS_PLACE + 2 * k)?;
    let left = classes_above(last, book::class_of(b, head));
    check_from(b, last, k, left, head)
}

// The chains in the order of their heads.
fn check_chains(b: &[u8], last: usize) -> Verdict
    requires { (120 ≤ last)
        × (last ≤ 121)
        × Sized b.now }
    ensures { result ≡ check_chains b.now last }
{
    let mut n: u64 = 0;
    for k in 0..CHAINS {
        n += check_chain(b, last, k)?;
    }
    Ok(n)
}

// The check of a book on an age basis. It is for the crates above, which name the basis.
#[tactic(auto, unfolding(book::specs::Check::check_book, verdict::specs::Verdicts::need, verdict::specs::Verdicts::first_refusal))]
pub fn check_on(b: &[u8], basis: usize) -> Verdict
    requires { (1 ≤ basis)
        × (basis ≤ 2) }
    ensures { result ≡ check_book basis b.now }
{
    need(HEADER_SIZE <= b.len(), 1, b.len())?;
    book_check_header::check_header(b, b.len(), basis)?;
    book_check_header::check_tables(b)?;
    check_chains(b, book::last_class(basis))
}

pub fn check(book: &[u8]) -> Verdict
    ensures { result ≡ check_book 1 book.now }
{
    check_on(book, 1)
}
