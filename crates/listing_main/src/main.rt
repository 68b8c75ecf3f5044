// The listing of the book on standard input: eight lines, or one line for a refusal.
#![tactic(auto)]

use std::io;

fn main(rt: HostRuntime) -> io::Result<()> {
    let mut space = book::input_buffer();
    let got = streams::read_full(&mut rt.stdin(), &mut space)?;
    // No listing is longer: so `short` of the call's contract says.
    let mut text = [0u8; 512];
    let end = match listing::write_listing(&space[..got], &mut text) {
        Ok(end) => end,
        Err(refusal) => buffer::put_refusal(&mut text, refusal.number, refusal.place as u64),
    };
    rt.write_all(&text[..end])
}
