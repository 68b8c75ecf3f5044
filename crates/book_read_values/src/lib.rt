// The values of a book, read. Where a first class is read, the book must be accepted: these
// functions are for the call that reads, which has that from the check.
#![tactic(auto)]

ghost use Rattle.std.specs.Prelude.{◌≡◌, ℕ, ◌+◌, ◌*◌, ◌≤◌, ◌<◌, length};
ghost use Rattle.le_bytes.specs.Bytes.{read_u32};
ghost use Rattle.book_contents.specs.Reading.{signed_of, first_in, firsts_of, values_of, Sound};
ghost use Rattle.lists.specs.Each.{each};

use book::{COST_PLACE, CURVE_PLACE, MORTALITY_PLACE};
use book_contents::Values;
use book_sizes::NO_CLASS;
use std::array;

// The signed number that 32 bits hold.
fn signed_of(u: u64) -> i64
    requires { u < 4294967296 }
    ensures { result ≡ signed_of u }
{
    i64::from((u as u32).cast_signed())
}

// A run of four-byte fields from a place on.
fn fields_of<const N: usize>(book: &[u8], at: usize) -> [u64; N]
    requires { at + 4 * N ≤ length book.now }
    ensures { result ≡ each (λ (j : ℕ). read_u32 book.now (at + 4 * j)) N }
{
    array::from_fn(|j| le_bytes::read_u32(book, at + 4 * j))
}

fn curve_of(book: &[u8]) -> [i64; 49]
    requires { 1220 ≤ length book.now }
    ensures { result ≡ each (λ (j : ℕ). signed_of (read_u32 book.now (56 + 4 * j)))
        49 }
{
    array::from_fn(|j| signed_of(le_bytes::read_u32(book, CURVE_PLACE + 4 * j)))
}

// Chain k's first class, 121 where it is empty.
pub fn first_in(book: &[u8], k: usize) -> u64
    requires { (k < 14)
        × Sound book.now }
    ensures { (result ≡ first_in book.now k)
        × (result ≤ 121) }
{
    let head = book::head_of(book, k);
    if head == 0 {
        return NO_CLASS;
    }
    book::class_of(book, head) as u64
}

pub fn firsts_of(book: &[u8]) -> [u64; 14]
    requires { Sound book.now }
    ensures { result ≡ firsts_of book.now }
{
    array::from_fn(|k| first_in(book, k))
}

#[tactic(auto, using(book_contents::proofs::Projection::reading))]
pub fn values_of(book: &[u8]) -> Values
    requires { Sound book.now }
    ensures { result ≡ values_of book.now }
{
    let cost = fields_of(book, COST_PLACE);
    let mortality = fields_of(book, MORTALITY_PLACE);
    let curve = curve_of(book);
    let first = firsts_of(book);
    let edition = book::edition(book) as u64;
    let men = book::percent_at(book, 0) as u64;
    let women = book::percent_at(book, 1) as u64;
    let year = le_bytes::read_u16(book, 2) as u64;
    Values {
        edition,
        men,
        women,
        year,
        cost,
        curve,
        mortality,
        first,
    }
}
