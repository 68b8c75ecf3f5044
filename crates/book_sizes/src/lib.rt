// The chains of a book: how many records they have, one by one and together, and refusal 22 for
// buffers of other lengths.
// The definitions are book_contents/specs/Contents and book_contents/specs/Limits.
#![tactic(auto)]

ghost use Rattle.std.specs.Prelude.{◌≡◌, ℕ, ◌+◌, ◌-◌, ◌≤◌, ◌<◌, length, sum_by};
ghost use Rattle.book_contents.specs.Contents.{no_class, size_of, records_before};
ghost use Rattle.book_contents.specs.Limits.{check_lengths};

use book::{HEADER_SIZE, RECORD_SIZE};
use book_contents::{ByKind, Values};
use verdict::{Verdict, need};

// The first class of an empty chain.
pub const NO_CLASS: u64 = 121;

// How long each list of a chain is that begins in this class.
fn size_from(class: u64) -> usize
    ensures { result ≡ no_class - class }
{
    NO_CLASS.saturating_sub(class) as usize
}

// The same of chains that begin in these classes, together.
fn sizes_from(first: &[u64]) -> usize
    requires { length first.now ≤ 14 }
    ensures { result ≡ sum_by (λ (class : ℕ). no_class - class) first.now }
{
    first.iter().map(|class| size_from(*class)).sum()
}

// A chain of the book of these values: its number, and how many records the chains before it have.
#[derive(Clone, Copy)]
pub struct Chain<'a> {
    pub values: &'a Values,
    pub number: usize,
    pub before: usize,
    ghost known: { number < 14 },
    ghost counted: { before ≡ records_before values.now.first number },
}

impl<'a> Chain<'a> {
    pub fn new(values: &'a Values, number: usize) -> Self
        requires { number < 14 }
        ensures { (result.values.now ≡ values.now)
            × (result.number ≡ number) }
    {
        let before = sizes_from(&values.first[..number]);
        Chain {
            values,
            number,
            before,
        }
    }

    // How long each of its lists is.
    pub fn size(self) -> usize
        ensures { (result ≡ size_of self.entry.values.now.first self.entry.number)
            × (result ≤ 121)
            × (self.entry.before + result ≤ 1694) }
    {
        size_from(self.values.first[self.number])
    }
}

// How long all lists of one kind are together.
pub fn total(first: &[u64; 14]) -> usize
    ensures { (result ≡ records_before first.now 14)
        × (result ≤ 1694) }
{
    sizes_from(first)
}

// Refusal 22, of list buffers and a byte buffer of these lengths, for lists of so many numbers of
// each kind.
#[tactic(auto, unfolding(book_contents::specs::Limits::check_lengths, verdict::specs::Verdicts::first_refusal))]
pub fn check_lengths(total: usize, lengths: ByKind<usize>, capacity: usize) -> Verdict
    requires { total ≤ 1694 }
    ensures { result ≡ check_lengths total lengths.counts lengths.lapses lengths.premiums
        lengths.claims capacity }
{
    need(lengths.counts == total, 22, 0)?;
    need(lengths.lapses == total, 22, 0)?;
    need(lengths.premiums == total, 22, 0)?;
    need(lengths.claims == total, 22, 0)?;
    need(HEADER_SIZE + RECORD_SIZE * total <= capacity, 22, 0)
}
