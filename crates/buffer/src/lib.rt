// Text into the caller's buffer, for the crates above. Each writer takes a place and gives the next
// one; a byte past the buffer's end is dropped, and the place goes on all the same, so a run of
// writers says the length of its text whatever the buffer's.
// A struct of buffer and place would be no plainer: `Wrote` is of the buffer before and after.
#![tactic(auto)]

ghost use Rattle.std.specs.Prelude.{◌≡◌, List, [], ◌∷◌, ◌++◌, ℕ, ◌+◌, ◌<◌, ◌≤◌, ◌^◌, length};
ghost use Rattle.buffer.specs.Text.{decimal, signed, refusal_text, Wrote};

pub fn put_byte(out: &mut [u8], at: usize, b: u8) -> usize
    requires { at + 1 < 2 ^ 64 }
    ensures { Wrote out.old at (b ∷ []) out.new result }
{
    if at < out.len() {
        out[at] = b;
    }
    at + 1
}

pub fn put_bytes(out: &mut [u8], at: usize, s: &[u8]) -> usize
    requires { at + length s.now + 1 < 2 ^ 64 }
    ensures { Wrote out.old at s.now out.new result }
{
    let mut next = at;
    for b in s {
        next = put_byte(out, next, *b);
    }
    next
}

// A number as text in base ten, and the most bytes that it takes.
pub trait Decimal: Copy {
    ghost text: { Self → List ℕ };

    ghost most: { ℕ };

    fn put(self, out: &mut [u8], at: usize) -> usize
        requires { at + most + 1 < 2 ^ 64 }
        ensures { Wrote out.old at (text self) out.new result
            × (result ≤ at + most) };
}

impl Decimal for u64 {
    ghost text = { decimal };

    ghost most = { 20 };

    fn put(self, out: &mut [u8], at: usize) -> usize {
        if self < 10 {
            return put_byte(out, at, b'0' + self as u8);
        }
        let next = (self / 10).put(out, at);
        put_byte(out, next, b'0' + (self % 10) as u8)
    }
}

impl Decimal for i64 {
    ghost text = { signed };

    ghost most = { 21 };

    fn put(self, out: &mut [u8], at: usize) -> usize {
        if self < 0 {
            let next = put_byte(out, at, b'-');
            return self.unsigned_abs().put(out, next);
        }
        self.unsigned_abs().put(out, at)
    }
}

// A number and the byte that ends it.
pub fn put_ended<N: Decimal>(out: &mut [u8], at: usize, n: N, b: u8) -> usize
    requires { at + N.most + 2 < 2 ^ 64 }
    ensures { Wrote out.old at (N.text n ++ b ∷ []) out.new result
        × (result ≤ at + N.most + 1) }
{
    let next = n.put(out, at);
    put_byte(out, next, b)
}

// The line of a refusal, from the buffer's start.
pub fn put_refusal(out: &mut [u8], number: u64, place: u64) -> usize
    ensures { Wrote out.old 0 (refusal_text number place) out.new result
        × (result ≤ 50) }
{
    let number_at = put_bytes(out, 0, b"refused ");
    let place_at = put_ended(out, number_at, number, b' ');
    put_ended(out, place_at, place, b'\n')
}
