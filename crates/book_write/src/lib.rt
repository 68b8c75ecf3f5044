// The call that writes a book: from the header's values and the lists of its chains to bytes in a
// caller's buffer.
#![tactic(auto)]

ghost use Rattle.buffer.specs.Text.{Wrote};
ghost use Rattle.book_contents.specs.Contents.{given, given_lists};
ghost use Rattle.book_contents.specs.Written.{book_of};
ghost use Rattle.book_contents.specs.Limits.{Fit};
ghost use Rattle.book_contents.specs.CallContracts.{WriteContract};

use book_contents::{ByKind, Values, WriteReply};
use book_limits::check_contents;
use book_write_chains::put_chains;
use book_write_header::put_header;

fn put_book(out: &mut [u8], values: &Values, lists: ByKind<&[u64]>) -> usize
    requires { Fit (given_lists values.now lists) }
    ensures { Wrote out.old 0 (book_of (given_lists values.now lists.entry)) out.new result }
{
    put_header(out, values);
    put_chains(out, values, lists)
}

// Writes the book of the contents, and answers its length. Where they are refused, a buffer that is
// shorter than the book among it, nothing is written. The lists stand apart here, as
// `xaropinto_write` takes them.
pub fn write(
    values: Values,
    counts: &[u64],
    lapses: &[u64],
    premiums: &[u64],
    claims: &[u64],
    out: &mut [u8],
) -> WriteReply
    ensures { WriteContract
        (given values counts.now lapses.now premiums.now
        claims.now) out.old out.new result }
{
    let lists = ByKind {
        counts,
        lapses,
        premiums,
        claims,
    };
    match check_contents(values, lists, out.len()) {
        Ok(_) => Ok(put_book(out, &values, lists)),
        Err(refusal) => Err(refusal),
    }
}
