// Where everything stands in a book, and readers of its records. The readers ask that the record
// lies in the bytes:
// they are for the crates above, which have shown it.
#![tactic(auto)]

ghost use Rattle.std.specs.Prelude.{◌≡◌, ◌*◌, ◌≤◌, ◌<◌, length};
ghost use Rattle.book.specs.Layout.{header_size, last_class, lowest_class, edition, records};
ghost use Rattle.book.specs.Layout.{percent_at, head_of, record_at, class_of, next_of, field_of};
ghost use Rattle.book.specs.Cells.{holds};
ghost use Rattle.book.specs.Reading.{Inside};

pub const HEADER_SIZE: usize = 1220;

pub const RECORD_SIZE: usize = 24;

pub const MOST_RECORDS: usize = 1694;

// The longest book.
pub const MOST_SIZE: usize = HEADER_SIZE + RECORD_SIZE * MOST_RECORDS;

pub const FIRST_YEAR: usize = 2017;

pub const LAST_YEAR: usize = 2100;

// Of the percentages of edition 2: men's, then women's.
pub const PERCENT_PLACE: usize = 6;

pub const MOST_PERCENT: usize = 100;

pub const CHAINS: usize = 14;

pub const HEADS_PLACE: usize = 8;

pub const COST_PLACE: usize = 36;

pub const CURVE_PLACE: usize = 56;

pub const MORTALITY_PLACE: usize = 252;

// The bytes of one sex.
pub const MORTALITY_SIZE: usize = 484;

// Of age basis 1.
pub const LAST_CLASS: usize = 120;

pub const MOST_RATE: u64 = 1_000_000;

pub const CURVE_LIFT: u64 = 10_000;

pub const CURVE_SPAN: u64 = 210_000;

pub const MOST_COUNT: u64 = 100_000;

pub const MOST_AMOUNT: u64 = 10_000_000;

pub const COUNT_OFFSET: usize = 8;

pub const LAPSE_OFFSET: usize = 12;

pub const PREMIUM_OFFSET: usize = 16;

pub const CLAIMS_OFFSET: usize = 20;

// The last class of an age basis.
pub fn last_class(basis: usize) -> usize
    requires { basis ≤ 2 }
    ensures { result ≡ last_class basis }
{
    119 + basis
}

// The lowest class, by the last.
pub fn lowest_class(last: usize) -> usize
    requires { 120 ≤ last }
    ensures { result ≡ lowest_class last }
{
    last - 120
}

pub fn edition(b: &[u8]) -> usize
    requires { header_size ≤ length b.now }
    ensures { (result ≡ edition b.now)
        × (result < 256) }
{
    le_bytes::read_u8(b, 0)
}

// The percentage that edition 2 has for a sex: 0 men, 1 women.
pub fn percent_at(b: &[u8], sex: usize) -> usize
    requires { (sex ≤ 1)
        × (header_size ≤ length b.now) }
    ensures { (result ≡ percent_at b.now sex)
        × (result < 256) }
{
    le_bytes::read_u8(b, PERCENT_PLACE + sex)
}

// N, the number of records.
pub fn records(b: &[u8]) -> usize
    requires { header_size ≤ length b.now }
    ensures { (result ≡ records b.now)
        × (result < 65536) }
{
    le_bytes::read_u16(b, 4)
}

// The first record of chain k, 0 where it is empty: no `Option`, since the book's own bytes have 0,
// and the definitions of its check speak of that number.
pub fn head_of(b: &[u8], k: usize) -> usize
    requires { (k < 14)
        × (header_size ≤ length b.now) }
    ensures { (result ≡ head_of b.now k)
        × (result < 65536) }
{
    le_bytes::read_u16(b, HEADS_PLACE + 2 * k)
}

// Where record i starts.
pub fn record_at(i: usize) -> usize
    requires { (0 < i)
        × (24 * i < 9223372036854775808) }
    ensures { result ≡ record_at i }
{
    HEADER_SIZE + RECORD_SIZE * (i - 1)
}

// The class of record i.
pub fn class_of(b: &[u8], i: usize) -> usize
    requires { Inside b.now i }
    ensures { (result ≡ class_of b.now i)
        × (result < 256) }
{
    le_bytes::read_u8(b, record_at(i) + 2)
}

// The record that follows record i in its chain, 0 where the chain ends, as in the book's bytes.
pub fn next_of(b: &[u8], i: usize) -> usize
    requires { Inside b.now i }
    ensures { (result ≡ next_of b.now i)
        × (result < 65536) }
{
    le_bytes::read_u16(b, record_at(i) + 4)
}

// Record i's four-byte field at an offset.
pub fn field_of(b: &[u8], i: usize, offset: usize) -> u64
    requires { Inside b.now i
        × (offset ≤ 20) }
    ensures { (result ≡ field_of b.now i offset)
        × (result < 4294967296) }
{
    le_bytes::read_u32(b, record_at(i) + offset)
}

// 1 where record i holds contracts, else 0.
pub fn holds(b: &[u8], i: usize) -> u64
    requires { Inside b.now i }
    ensures { (result ≡ holds b.now i)
        × (result ≤ 1) }
{
    let count = field_of(b, i, COUNT_OFFSET);
    if count == 0 { 0 } else { 1 }
}

// Zeros, one more than the longest book has bytes: a program that reads a longer input still
// refuses it for its length.
pub fn input_buffer() -> [u8; 41_877]
    ensures { 41_877 ≡ length result }
{
    [0; 41_877]
}
