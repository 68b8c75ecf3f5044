// Totals and the listing on a stream of books: each book follows its length in four bytes. For each
// book a line has refusal, place, n, the eight totals and the four differences, and the listing
// follows.
#![tactic(auto)]

use std::io;
use std::io::Read;
use valuation::TotalsReply;

// A blank, and the number after it.
fn write_signed(rt: &impl Print, v: i64) -> io::Result<()> {
    print!(rt; " {v}")
}

fn write_row(rt: &impl Print, row: &[i64]) -> io::Result<()> {
    for v in row {
        write_signed(rt, *v)?;
    }
    Ok(())
}

fn write_values(rt: &impl Print, reply: TotalsReply) -> io::Result<()> {
    let refusal = reply.refusal;
    let place = reply.place;
    let n = reply.n;
    print!(rt; "{refusal} {place} {n}")?;
    let totals = reply.totals;
    let differences = reply.differences;
    write_row(rt, &totals)?;
    write_row(rt, &differences)?;
    println!(rt)
}

// The listing, or the line of a refusal.
fn write_listing(rt: &impl Print, book: &[u8]) -> io::Result<()> {
    let mut text = [0u8; 512];
    let end = match listing::write_listing(book, &mut text) {
        Ok(end) => end,
        Err(refusal) => buffer::put_refusal(&mut text, refusal.number, refusal.place as u64),
    };
    rt.write_all(&text[..end])
}

// One book; false where the stream has ended.
fn next_listing<R: Read>(rt: &impl Print, books: &mut R) -> io::Result<bool> {
    let Some(size) = test_stream::next_u32(books)? else {
        return Ok(false);
    };
    let mut space = test_stream::book_buffer();
    let got = test_stream::next_bytes(books, &mut space, size)?;
    if (got as u64) < size {
        return Ok(false);
    }
    write_values(rt, totals::totals(&space[..got]))?;
    write_listing(rt, &space[..got])?;
    Ok(true)
}

fn main(rt: HostRuntime) -> io::Result<()> {
    let mut books = rt.stdin();
    // No stream has more books than this, and every loop ends.
    for _ in 0usize..1_000_000 {
        if !next_listing(&rt, &mut books)? {
            break;
        }
    }
    Ok(())
}
