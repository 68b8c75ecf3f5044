// Group on a stream: each entry is a setting and a product group in eight bytes each, the table's
// length in four, the book's length in four, and the book.
// A line has refusal, place, liability and n; where accepted the table's 200 numbers; and how many
// numbers of the table are as they were.
#![tactic(auto)]

ghost use Rattle.std.specs.Prelude.{◌≡◌, ◌≤◌, length};

use std::io;
use std::io::Read;

// What number k of the table holds before the call is this and k.
const MARK: u64 = 9_000_000_000_000_000_000;

fn write_number(rt: &impl Print, n: u64) -> io::Result<()> {
    print!(rt; "{n} ")
}

fn write_signed(rt: &impl Print, v: i64) -> io::Result<()> {
    print!(rt; "{v} ")
}

// A table of 300 numbers, so that some can lie past those that the call writes.
fn table() -> [u64; 300]
    ensures { 300 ≡ length result }
{
    [0; 300]
}

fn mark(numbers: &mut [u64])
    requires { length numbers.old ≤ 300 }
{
    for (k, number) in numbers.iter_mut().enumerate() {
        *number = MARK + k as u64;
    }
}

fn write_years(rt: &impl Print, numbers: &[u64]) -> io::Result<()> {
    if numbers.len() < 200 {
        return Ok(());
    }
    for n in &numbers[..200] {
        write_number(rt, *n)?;
    }
    Ok(())
}

// Ends the line with how many numbers from a place on still hold their mark.
fn write_kept(rt: &impl Print, numbers: &[u64], from: usize) -> io::Result<()>
    requires { length numbers.now ≤ 300 }
{
    let kept = numbers
        .iter()
        .enumerate()
        .skip(from)
        .filter(|(k, number)| **number == MARK + *k as u64)
        .count();
    println!(rt; "{kept}")
}

fn write_reply(
    rt: &impl Print,
    book: &[u8],
    setting: usize,
    group: usize,
    numbers: &mut [u64],
) -> io::Result<()>
    requires { length numbers.old ≤ 300 }
{
    mark(numbers);
    let reply = group_liability::group(book, setting, group, numbers);
    match reply {
        Ok(valued) => {
            print!(rt; "0 0 ")?;
            write_signed(rt, valued.liability)?;
            write_number(rt, valued.n)?;
            write_years(rt, numbers)?;
            write_kept(rt, numbers, 200)
        }
        Err(refusal) => {
            write_number(rt, refusal.number)?;
            write_number(rt, refusal.place as u64)?;
            print!(rt; "0 0 ")?;
            write_kept(rt, numbers, 0)
        }
    }
}

// Answers a call on a book of so many bytes, with a table of so many numbers; false where the
// stream ends before.
fn answer<R: Read>(
    rt: &impl Print,
    entries: &mut R,
    setting: usize,
    group: usize,
    count: u64,
    size: u64,
) -> io::Result<bool> {
    if 300 < count {
        return Ok(false);
    }
    let mut space = test_stream::book_buffer();
    let got = test_stream::next_bytes(entries, &mut space, size)?;
    if (got as u64) < size {
        return Ok(false);
    }
    let mut numbers = table();
    let end = count as usize;
    write_reply(rt, &space[..got], setting, group, &mut numbers[..end])?;
    Ok(true)
}

// One entry; false where the stream has ended.
fn next_reply<R: Read>(rt: &impl Print, entries: &mut R) -> io::Result<bool> {
    let mut head = [0u8; 24];
    if streams::read_full(entries, &mut head)? < 24 {
        return Ok(false);
    }
    let setting = test_stream::read_u64(&head, 0);
    let group = test_stream::read_u64(&head, 8);
    answer(
        rt,
        entries,
        setting as usize,
        group as usize,
        le_bytes::read_u32(&head, 16),
        le_bytes::read_u32(&head, 20),
    )
}

fn main(rt: HostRuntime) -> io::Result<()> {
    let mut entries = rt.stdin();
    // No stream has more entries than this, and every loop ends.
    for _ in 0usize..1_000_000 {
        if !next_reply(&rt, &mut entries)? {
            break;
        }
    }
    Ok(())
}
