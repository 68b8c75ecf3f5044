// The check on a stream of books: each book follows its length in four bytes, and each verdict is a
// line.
#![tactic(auto)]

use std::io;
use std::io::Read;
use verdict::Verdict;

fn write_verdict(rt: &impl Print, v: Verdict) -> io::Result<()> {
    match v {
        Ok(n) => println!(rt; "accepted {n}"),
        Err(refusal) => println!(rt; "refused {} {}", refusal.number, refusal.place),
    }
}

// One book; false where the stream has ended.
fn next_verdict<R: Read>(rt: &impl Print, books: &mut R) -> io::Result<bool> {
    let Some(size) = test_stream::next_u32(books)? else {
        return Ok(false);
    };
    let mut space = test_stream::book_buffer();
    let got = test_stream::next_bytes(books, &mut space, size)?;
    if (got as u64) < size {
        return Ok(false);
    }
    write_verdict(rt, book_check::check(&space[..got]))?;
    Ok(true)
}

fn main(rt: HostRuntime) -> io::Result<()> {
    let mut books = rt.stdin();
    // No stream has more books than this, and every loop ends.
    for _ in 0usize..1_000_000 {
        if !next_verdict(&rt, &mut books)? {
            break;
        }
    }
    Ok(())
}
