// The fields of a book: numbers of two and four bytes, least byte first; runs of fields with a
// range.
// The readers ask that the field lies in the bytes: they are for the crates above, which have shown
// it.
#![tactic(auto)]

ghost use Rattle.std.specs.Prelude.{◌≡◌, ◌+◌, ◌*◌, ◌≤◌, ◌<◌, length};
ghost use Rattle.le_bytes.specs.Bytes.{byte_at, read_u16, read_u32};
ghost use Rattle.le_bytes.specs.Fields.{within, check_field, check_fields};

use verdict::{Verdict, need};

pub fn read_u8(b: &[u8], at: usize) -> usize
    requires { at < length b.now }
    ensures { (result ≡ byte_at b.now at)
        × (result < 256) }
{
    usize::from(b[at])
}

pub fn read_u16(b: &[u8], at: usize) -> usize
    requires { at + 2 ≤ length b.now }
    ensures { (result ≡ read_u16 b.now at)
        × (result < 65536) }
{
    read_u8(b, at) + 256 * read_u8(b, at + 1)
}

pub fn read_u32(b: &[u8], at: usize) -> u64
    requires { at + 4 ≤ length b.now }
    ensures { (result ≡ read_u32 b.now at)
        × (result < 4294967296) }
{
    let low = read_u16(b, at);
    let high = read_u16(b, at + 2);
    (low + 65536 * high) as u64
}

// From low to high, both allowed.
#[tactic(auto, unfolding(crate::specs::Fields::within))]
pub fn within(low: usize, high: usize, x: usize) -> bool
    ensures { result ≡ within low high x }
{
    low <= x && x <= high
}

// A four-byte field, refused where the number stored, raised by lift in 32 bits, is above span.
pub fn check_field(b: &[u8], number: u64, lift: u64, span: u64, at: usize) -> Verdict
    requires { (at + 4 ≤ length b.now)
        × (lift < 4294967296) }
    ensures { result ≡ check_field b.now number lift span at }
{
    need((read_u32(b, at) + lift) % 4_294_967_296 <= span, number, at)
}

// Of a run of four-byte fields, the first that is out of its range.
pub fn check_fields(b: &[u8], number: u64, lift: u64, span: u64, at: usize, count: usize) -> Verdict
    requires { (at + 4 * count ≤ length b.now)
        × (lift < 4294967296) }
    ensures { result ≡ check_fields b.now number lift span at count }
{
    for k in 0..count {
        check_field(b, number, lift, span, at + 4 * k)?;
    }
    Ok(0)
}
