// What the test programs read from a stream: numbers, least byte first, and bytes.
#![tactic(auto)]

ghost use Rattle.std.specs.Prelude.{◌≡◌, ◌+◌, ◌≤◌, ℕ, IfOk, IfSome, List, OnErr, length, take};
ghost use Rattle.std.specs.Io.{ReadsAtMost};
ghost use Rattle.std.specs.Io.KnownBytes.{Consumes};
ghost use Rattle.le_bytes.specs.Bytes.{read_u32, read_u64};

use std::io;
use std::io::Read;

// Zeros, more than the longest book of a stream has bytes.
pub fn book_buffer() -> [u8; 65_536]
    ensures { 65_536 ≡ length result }
{
    [0; 65_536]
}

// The next bytes, or none where the input has ended. A read that fails is answered with its error,
// and no other, here and by the two below.
fn next_array<R: Read, const N: usize>(reader: &mut R) -> io::Result<Option<[u8; N]>>
    ensures { IfOk result (λ found. IfSome found (λ bytes. (length bytes ≡ N)
        × Consumes (R.remaining reader.old) (R.remaining reader.new) bytes)) }
{
    let mut bytes = [0u8; N];
    if streams::read_full(reader, &mut bytes)? < N {
        return Ok(None);
    }
    Ok(Some(bytes))
}

// The next number of four bytes, and of eight.
pub fn next_u32<R: Read>(reader: &mut R) -> io::Result<Option<u64>>
    ensures { IfOk result (λ found. IfSome found (λ n. (bytes : List ℕ)
        × (n ≡ read_u32 bytes 0)
        × (length bytes ≡ 4)
        × Consumes (R.remaining reader.old) (R.remaining reader.new) bytes)) }
{
    let bytes = next_array::<R, 4>(reader)?;
    Ok(bytes.map(
        |b| -> u64
            ensures { result ≡ read_u32 b 0 }
        { le_bytes::read_u32(&b, 0) },
    ))
}

pub fn next_u64<R: Read>(reader: &mut R) -> io::Result<Option<u64>>
    ensures { IfOk result (λ found. IfSome found (λ n. (bytes : List ℕ)
        × (n ≡ read_u64 bytes 0)
        × (length bytes ≡ 8)
        × Consumes (R.remaining reader.old) (R.remaining reader.new) bytes)) }
{
    let bytes = next_array::<R, 8>(reader)?;
    Ok(bytes.map(
        |b| -> u64
            ensures { result ≡ read_u64 b 0 }
        { read_u64(&b, 0) },
    ))
}

// The number of eight bytes at a place.
pub fn read_u64(b: &[u8], at: usize) -> u64
    requires { at + 8 ≤ length b.now }
    ensures { result ≡ read_u64 b.now at }
{
    le_bytes::read_u32(b, at) + 4_294_967_296 * le_bytes::read_u32(b, at + 4)
}

// Reads so many bytes to the start of a buffer, and answers how many came: none where the buffer is
// too short. A read that fails ends it, with that read's error and no other: what was read before
// it stands at the buffer's start.
pub fn next_bytes<R: Read>(reader: &mut R, buffer: &mut [u8], size: u64) -> io::Result<usize>
    ensures bound { ReadsAtMost result buffer.new }
    ensures error { OnErr result ((n : ℕ) × (n ≤ length buffer.new)
        × Consumes (R.remaining reader.old) (R.remaining reader.new) (take n buffer.new)) }
{
    if (buffer.len() as u64) < size {
        return Ok(0);
    }
    let end = size as usize;
    streams::read_full(reader, &mut buffer[..end])
}
