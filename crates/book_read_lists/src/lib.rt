// The lists of a book, read into the caller's buffers, and what Read refuses.
#![tactic(auto)]

ghost use Rattle.std.specs.Prelude.{[], ◌∷◌, ◌≡◌, ◌+◌, ◌≤◌, ◌<◌, ◌^◌};
ghost use Rattle.std.proofs.lemmas.List.Edits.{sets};
ghost use Rattle.buffer.specs.Text.{Wrote};
ghost use Rattle.book_contents.specs.Reading.{list_in, field_list, check_read, Sound};

use book::CHAINS;
use book_contents::ByKind;
use book_read_values::{first_in, firsts_of};
use book_sizes::NO_CLASS;
use verdict::{Verdict, need};

// Writes one number, and gives the next place; past the buffer's end it is dropped.
fn put_entry(list: &mut [u64], at: usize, x: u64) -> usize
    requires { at + 1 < 2 ^ 64 }
    ensures { Wrote list.old at (x ∷ []) list.new result }
{
    if at < list.len() {
        list[at] = x;
    }
    at + 1
}

// One field of the records of chain k, from a place of the list on.
#[tactic(auto, using(book_contents::proofs::Projection::reading))]
fn fill_chain(book: &[u8], k: usize, offset: usize, list: &mut [u64], at: usize) -> usize
    requires { (k < 14)
        × (offset ≤ 20)
        × (at + 122 < 2 ^ 64)
        × Sound book.now }
    ensures { Wrote list.old at (list_in book.now offset k)
        list.new result
        × (result ≤ at + 121) }
{
    let size = (NO_CLASS - first_in(book, k)) as usize;
    let mut i = book::head_of(book, k);
    let mut next = at;
    for _ in 0..size {
        next = put_entry(list, next, book::field_of(book, i, offset));
        i = book::next_of(book, i);
    }
    next
}

// One field of all linked records, in linked order.
pub fn fill_list(book: &[u8], offset: usize, list: &mut [u64])
    requires { (offset ≤ 20)
        × Sound book.now }
    ensures { list.new ≡ sets list.old 0
        (field_list book.now offset) }
{
    let mut next = 0;
    for k in 0..CHAINS {
        next = fill_chain(book, k, offset, list, next);
    }
}

// The book's refusals, then 22 for buffers of these lengths.
#[tactic(auto, using(verdict::proofs::Verdicts::accepted), unfolding(book_contents::specs::Reading::check_read, verdict::specs::Verdicts::first_refusal))]
pub fn check_read(book: &[u8], lengths: ByKind<usize>) -> Verdict
    ensures { result ≡ check_read book.now lengths.counts lengths.lapses lengths.premiums
        lengths.claims }
{
    book_check::check(book)?;
    let first = firsts_of(book);
    let n = book_sizes::total(&first);
    need(n <= lengths.counts, 22, 0)?;
    need(n <= lengths.lapses, 22, 0)?;
    need(n <= lengths.premiums, 22, 0)?;
    need(n <= lengths.claims, 22, 0)
}
