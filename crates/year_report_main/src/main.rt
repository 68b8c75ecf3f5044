// The year report of the book on standard input, or one line for a refusal. The setting is the word
// that the program is started with; 0, the base, where there is none.
#![tactic(auto)]

ghost use Rattle.std.specs.Prelude.{◌≡◌};
ghost use Rattle.year_report_main.specs.Words.{setting_of, setting_named};

use std::env::{Env, FillError};
use std::io;

#[tactic(auto, unfolding(crate::specs::Words::setting_of))]
fn setting_of(word: &[u8]) -> usize
    ensures { result ≡ setting_of word.now }
{
    if word.len() != 1 {
        return 8;
    }
    let digit = word[0];
    if digit < 48 {
        return 8;
    }
    (digit - 48) as usize
}

#[tactic(auto, unfolding(crate::specs::Words::setting_named))]
fn setting_named(words: usize, second: &[u8]) -> usize
    ensures { result ≡ setting_named words second.now }
{
    if words <= 1 {
        return 0;
    }
    if words != 2 {
        return 8;
    }
    setting_of(second)
}

// How many words the program was started with, its own name the first.
fn count_words(arguments: &impl Env) -> usize {
    let mut none = [0u8; 0];
    for i in 0..usize::MAX {
        if let Err(FillError::NotPresent) = arguments.arg(i, &mut none) {
            return i;
        }
    }
    usize::MAX
}

// The setting that the words name which the program was started with. A word that is longer than
// the buffer names none, as the empty word does.
fn read_setting(arguments: &impl Env) -> usize {
    let mut word = [0u8; 8];
    let spelled = arguments.arg(1, &mut word).unwrap_or(0);
    setting_named(count_words(arguments), &word[..spelled])
}

fn main(rt: HostRuntime) -> io::Result<()> {
    let setting = read_setting(&rt);
    let mut space = book::input_buffer();
    let got = streams::read_full(&mut rt.stdin(), &mut space)?;
    // No report wants more: so `most` of the telling call's contract says.
    let mut text = [0u8; 9_525];
    let end = match year_report::write_report(&space[..got], setting, &mut text) {
        Ok(end) => end,
        Err(refusal) => buffer::put_refusal(&mut text, refusal.number, refusal.place as u64),
    };
    rt.write_all(&text[..end])
}
