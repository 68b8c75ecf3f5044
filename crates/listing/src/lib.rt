// The listing of a book, as text in a passed buffer: the call that writes it.
#![tactic(auto)]

ghost use Rattle.listing.specs.Listing.{ListingContract};

use listing_text::put_listing;
use text_reply::TextReply;
use verdict::{Refusal, need};

// Writes the listing, from the book's bytes to the bytes to file, and replies its length. Where the
// book is refused, or the buffer is shorter than the listing, it replies the refusal and writes
// nothing.
pub fn write_listing(book: &[u8], out: &mut [u8]) -> TextReply
    ensures { ListingContract book.now out.old out.new result }
{
    let reply = totals::totals(book);
    if reply.refusal != 0 {
        return Err(Refusal {
            number: reply.refusal,
            place: reply.place,
        });
    }
    let totals = reply.totals;
    // On an empty buffer a run of writers says the length of its text.
    let mut none = [0u8; 0];
    let length = put_listing(&mut none, totals, reply.n);
    need(length <= out.len(), 20, 0)?;
    Ok(put_listing(out, totals, reply.n))
}
