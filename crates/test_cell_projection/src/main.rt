// The projection on a stream: each entry is a setting and a chain in eight bytes each, the book's
// length in four, and the book.
// A line has how many years the projection of the chain's first cell computes, or the word none
// where there is no such cell.
#![tactic(auto)]

use cell_projection::{A_YEAR, ModelPoint, YEARS};
use rate_table::{COLUMNS, ROWS};
use std::io;
use std::io::Read;

// The projection of the first cell of a chain of an accepted book.
fn first_projection(book: &[u8], setting: usize, chain: usize) -> Option<usize> {
    if 7 < setting {
        return None;
    }
    if 13 < chain {
        return None;
    }
    let Ok(_) = book_check::check(book) else {
        return None;
    };
    let head = book::head_of(book, chain);
    if head == 0 {
        return None;
    }
    let mut rows = [0u64; ROWS * COLUMNS];
    let mut sums = [0u64; YEARS * A_YEAR];
    let w = settings_decrements::shifts_of(book);
    chain_rows::read_rows(book, w, chain, head, &mut rows);
    let count = book::field_of(book, head, book::COUNT_OFFSET);
    let point = ModelPoint { row: 0, count };
    let counts = five_projections::project(&rows, point, &mut sums);
    Some(counts.of(settings_columns::projection_of(setting)))
}

fn write_years(rt: &impl Print, years: Option<usize>) -> io::Result<()> {
    match years {
        Some(n) => println!(rt; "{n}"),
        None => println!(rt; "none"),
    }
}

// One entry; false where the stream has ended.
fn next_cell<R: Read>(rt: &impl Print, entries: &mut R) -> io::Result<bool> {
    let mut head = [0u8; 20];
    if streams::read_full(entries, &mut head)? < 20 {
        return Ok(false);
    }
    let setting = test_stream::read_u64(&head, 0);
    let chain = test_stream::read_u64(&head, 8);
    let size = le_bytes::read_u32(&head, 16);
    let mut space = test_stream::book_buffer();
    let got = test_stream::next_bytes(entries, &mut space, size)?;
    if (got as u64) < size {
        return Ok(false);
    }
    write_years(
        rt,
        first_projection(&space[..got], setting as usize, chain as usize),
    )?;
    Ok(true)
}

fn main(rt: HostRuntime) -> io::Result<()> {
    let mut entries = rt.stdin();
    // No stream has more entries than this, and every loop ends.
    for _ in 0usize..1_000_000 {
        if !next_cell(&rt, &mut entries)? {
            break;
        }
    }
    Ok(())
}
