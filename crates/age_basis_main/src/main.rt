// The book on standard input, of age basis 2, turned into basis 1 on standard output. A refusal is
// one line on standard error, and then nothing is written to standard output.
#![tactic(auto)]

use std::io;
use verdict::Refusal;

fn tell_refusal(errors: &impl Print, refusal: Refusal) -> io::Result<()> {
    // No refusal's line is longer: so the call's contract says.
    let mut line = [0u8; 50];
    let end = buffer::put_refusal(&mut line, refusal.number, refusal.place as u64);
    errors.write_all(&line[..end])
}

fn main(rt: HostRuntime) -> io::Result<()> {
    let mut space = book::input_buffer();
    let got = streams::read_full(&mut rt.stdin(), &mut space)?;
    let mut converted = book::input_buffer();
    match age_basis::convert(&space[..got], &mut converted) {
        Ok(_) => rt.write_all(&converted[..got]),
        Err(refusal) => tell_refusal(&rt.stderr(), refusal),
    }
}
