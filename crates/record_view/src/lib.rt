// The record view: the 24 bytes of a record as a part of the caller's book.
// `view_record` returns the part in a struct. `locate` says where it stands, for callers that take
// no struct with a reference.
#![tactic(auto)]

ghost use Rattle.std.specs.Prelude.{◌≡◌};
ghost use Rattle.record_view.specs.RecordView.{check_record, located_in, PartOf, Shows};

use verdict::{Verdict, need};

// The refusal and its place, 0 and 0 where there is none, and where the record's bytes stand, 0 and
// 0 where refused. C has this struct as it is, so it is no `Result`.
#[repr(C)]
#[derive(Clone, Copy)]
pub struct Located {
    pub refusal: u64,
    pub place: usize,
    pub start: usize,
    pub len: usize,
}

// The same with the bytes themselves, none where refused. No `Result`: `Shows` says of a refused
// view too where its empty part stands.
#[derive(Clone, Copy)]
pub struct Shown<'a> {
    pub refusal: u64,
    pub place: usize,
    pub part: &'a [u8],
}

// The book's own refusals, then 9 where there is no record of that number.
#[tactic(auto, unfolding(crate::specs::RecordView::check_record, verdict::specs::Verdicts::first_refusal))]
fn check_record(book: &[u8], number: usize) -> Verdict
    ensures { result ≡ check_record book.now number }
{
    book_check::check(book)?;
    need(le_bytes::within(1, book::records(book), number), 9, 0)
}

// Where a record stands in the book.
pub fn locate(book: &[u8], number: usize) -> Located
    ensures { result ≡ located_in book.now number }
{
    match check_record(book, number) {
        Ok(_) => Located {
            refusal: 0,
            place: 0,
            start: book::record_at(number),
            len: book::RECORD_SIZE,
        },
        Err(refusal) => Located {
            refusal: refusal.number,
            place: refusal.place,
            start: 0,
            len: 0,
        },
    }
}

// len bytes from start, none where they run past the end.
pub fn part(book: &[u8], start: usize, len: usize) -> &[u8]
    ensures { PartOf book.entry start len result }
{
    if start <= book.len() {
        if len <= book.len() - start {
            &book[start..start + len]
        } else {
            &book[..0]
        }
    } else {
        &book[..0]
    }
}

pub fn view_record<'a>(book: &'a [u8], number: usize) -> Shown<'a>
    ensures { Shows book.entry number result }
{
    let found = locate(book, number);
    let part = part(book, found.start, found.len);
    Shown {
        refusal: found.refusal,
        place: found.place,
        part,
    }
}
