// Numbers as the bytes of a book, for the crates that write one: two bytes or four, least byte
// first, and runs of fields. Each writer takes a place and gives the next one, as those of `buffer`
// do.
#![tactic(auto)]

ghost use Rattle.std.specs.Prelude.{true, ◌≡◌, ℕ, ◌+◌, ◌*◌, ◌<◌, ◌^◌, pos, length, get_or};
ghost use Rattle.le_bytes.specs.Bytes.{two_bytes, four_bytes};
ghost use Rattle.buffer.specs.Text.{Wrote};
ghost use Rattle.book_contents.specs.Written.{twos_complement, fields};
ghost use Rattle.book_contents.specs.Written.{signed_fields};
ghost use Rattle.book_contents.specs.Limits.{curve_rate};

use buffer::put_bytes;

pub fn put_two(out: &mut [u8], at: usize, x: u64) -> usize
    requires { at + 3 < 2 ^ 64 }
    ensures { Wrote out.old at (two_bytes x) out.new result
        × (result ≡ at + 2) }
{
    let bytes = x.to_le_bytes();
    put_bytes(out, at, &bytes[..2])
}

pub fn put_four(out: &mut [u8], at: usize, x: u64) -> usize
    requires { at + 5 < 2 ^ 64 }
    ensures { Wrote out.old at (four_bytes x) out.new result
        × (result ≡ at + 4) }
{
    let bytes = x.to_le_bytes();
    put_bytes(out, at, &bytes[..4])
}

// Every number of the list, four bytes each.
pub fn put_fields(out: &mut [u8], at: usize, list: &[u64]) -> usize
    requires { at + 4 * length list.now + 5 < 2 ^ 64 }
    ensures { Wrote out.old at
        (fields list.now (length list.now)) out.new result
        × (result ≡ at + 4 * length list.now) }
{
    let mut next = at;
    for x in list {
        next = put_four(out, next, *x);
    }
    next
}

// A curve rate as 32 bits hold it.
fn stored(x: i64) -> u64
    requires { curve_rate x ≡ true }
    ensures { result ≡ twos_complement x }
{
    u64::from((x as i32).cast_unsigned())
}

// Beside `put_fields`: a trait for both would be longer than the loop, as only rates have a range.
pub fn put_curve(out: &mut [u8], at: usize, curve: &[i64]) -> usize
    requires { (at + 4 * length curve.now + 5 < 2 ^ 64)
        × ((j : ℕ) → curve_rate (get_or curve.now j (pos 0)) ≡ true) }
    ensures { Wrote out.old at
        (signed_fields curve.now (length curve.now)) out.new result
        × (result ≡ at + 4 * length curve.now) }
{
    let mut next = at;
    for x in curve {
        next = put_four(out, next, stored(*x));
    }
    next
}
