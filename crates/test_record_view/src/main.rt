// The record view on a stream: each entry is a record number in eight bytes, the book's length in
// four, and the book. A line has the refusal, its place, the number of bytes shown and, where there
// are any, those bytes in hexadecimal.
#![tactic(auto)]

use std::io;
use std::io::Read;

fn write_number(rt: &impl Print, n: u64) -> io::Result<()> {
    print!(rt; "{n} ")
}

fn write_bytes(rt: &impl Print, part: &[u8]) -> io::Result<()> {
    for byte in part {
        print!(rt; "{byte:02x}")?;
    }
    Ok(())
}

fn write_shown(rt: &impl Print, refusal: u64, place: usize, part: &[u8]) -> io::Result<()> {
    write_number(rt, refusal)?;
    write_number(rt, place as u64)?;
    print!(rt; "{}", part.len())?;
    if part.len() > 0 {
        print!(rt; " ")?;
    }
    write_bytes(rt, part)?;
    println!(rt)
}

fn write_record(rt: &impl Print, book: &[u8], number: usize) -> io::Result<()> {
    let shown = record_view::view_record(book, number);
    write_shown(rt, shown.refusal, shown.place, shown.part)
}

// One entry; false where the stream has ended.
fn next_record<R: Read>(rt: &impl Print, entries: &mut R) -> io::Result<bool> {
    let Some(number) = test_stream::next_u64(entries)? else {
        return Ok(false);
    };
    let Some(size) = test_stream::next_u32(entries)? else {
        return Ok(false);
    };
    let mut space = test_stream::book_buffer();
    let got = test_stream::next_bytes(entries, &mut space, size)?;
    if (got as u64) < size {
        return Ok(false);
    }
    write_record(rt, &space[..got], number as usize)?;
    Ok(true)
}

fn main(rt: HostRuntime) -> io::Result<()> {
    let mut entries = rt.stdin();
    // No stream has more entries than this, and every loop ends.
    for _ in 0usize..1_000_000 {
        if !next_record(&rt, &mut entries)? {
            break;
        }
    }
    Ok(())
}
