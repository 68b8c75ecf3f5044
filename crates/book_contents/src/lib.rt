// What a user who wants a book has, and what the two calls answer: the types. The definitions and
// theorems of writing and reading stand in specs and proofs, the calls in `book_write` and
// `book_read`.

#![tactic(auto)]

ghost use Rattle.std.specs.Prelude.{◌≡◌};
ghost use Rattle.book_contents.specs.Contents.{lengths_of};

use verdict::Refusal;

// The header's values: the edition and its mortality percentages of men and women, both 0 in
// edition 1; the SST year;
// five cost rates, 49 curve rates and 242 of mortality, men's before women's, in millionths; and
// for each of the 14 chains its first class, 121 where it is empty. All are of 64 bits, so that
// whatever a spreadsheet holds arrives uncut.
#[repr(C)]
#[derive(Clone, Copy)]
pub struct Values {
    pub edition: u64,
    pub men: u64,
    pub women: u64,
    pub year: u64,
    pub cost: [u64; 5],
    pub curve: [i64; 49],
    pub mortality: [u64; 242],
    pub first: [u64; 14],
}

// The call that writes: the book's length, or the refusal.
pub type WriteReply = Result<usize, Refusal>;

// The call that reads. Refusal and place are 0 where the book is read; every other field is 0 where
// it is refused. C has this struct as it is, so it is no `Result`.
#[repr(C)]
#[derive(Clone, Copy)]
pub struct ReadReply {
    pub refusal: u64,
    pub place: usize,
    pub values: Values,
}

// One thing for each of the four kinds of numbers that records have: the lists of that kind, all
// chains' end to end, or how long they are together.
#[derive(Clone, Copy)]
pub struct ByKind<T> {
    pub counts: T,
    pub lapses: T,
    pub premiums: T,
    pub claims: T,
}

impl ByKind<&[u64]> {
    pub fn lengths(self) -> ByKind<usize>
        ensures { result ≡ lengths_of self.entry }
    {
        ByKind {
            counts: self.counts.len(),
            lapses: self.lapses.len(),
            premiums: self.premiums.len(),
            claims: self.claims.len(),
        }
    }
}
