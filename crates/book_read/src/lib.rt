// The call that reads a book: from any bytes to the header's values and, in four of the caller's
// buffers, the lists of its chains.
#![tactic(auto)]

ghost use Rattle.std.specs.Prelude.{◌≡◌, Err};
ghost use Rattle.book_contents.specs.Reading.{no_values};
ghost use Rattle.book_contents.specs.CallContracts.{read_for, ReadContract};

use book::{CLAIMS_OFFSET, COUNT_OFFSET, LAPSE_OFFSET, PREMIUM_OFFSET};
use book_contents::{ByKind, ReadReply, Values};
use book_read_lists::{check_read, fill_list};
use book_read_values::values_of;
use verdict::Refusal;

// A refusal, in the struct that C has.
fn refused(refusal: Refusal) -> ReadReply
    ensures { result ≡ read_for (Err refusal) no_values }
{
    let values = Values {
        edition: 0,
        men: 0,
        women: 0,
        year: 0,
        cost: [0; 5],
        curve: [0; 49],
        mortality: [0; 242],
        first: [0; 14],
    };
    ReadReply {
        refusal: refusal.number,
        place: refusal.place,
        values,
    }
}

// Reads a book: the header's values in the answer, the lists in the four buffers. Numbers past the
// lists stay as they were; so does every buffer passed where the book is refused or a buffer is too
// short. They stand apart here, as `xaropinto_read` takes them.
#[tactic(auto, using(book_contents::proofs::Projection::reading))]
pub fn read(
    book: &[u8],
    counts: &mut [u64],
    lapses: &mut [u64],
    premiums: &mut [u64],
    claims: &mut [u64],
) -> ReadReply
    ensures { ReadContract book.now counts.old lapses.old
        premiums.old claims.old counts.new lapses.new
        premiums.new claims.new result }
{
    let lengths = ByKind {
        counts: counts.len(),
        lapses: lapses.len(),
        premiums: premiums.len(),
        claims: claims.len(),
    };
    let v = check_read(book, lengths);
    match v {
        Ok(_) => {
            fill_list(book, COUNT_OFFSET, counts);
            fill_list(book, LAPSE_OFFSET, lapses);
            fill_list(book, PREMIUM_OFFSET, premiums);
            fill_list(book, CLAIMS_OFFSET, claims);
            let values = values_of(book);
            ReadReply {
                refusal: 0,
                place: 0,
                values,
            }
        }
        Err(refusal) => refused(refusal),
    }
}
