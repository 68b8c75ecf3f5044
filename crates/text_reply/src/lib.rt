// What a call that writes a text into a passed buffer replies. It has no code: what the reply says
// and what the buffer of a call holds afterwards stand in specs, the laws of both in proofs.

#![tactic(auto)]

use verdict::Refusal;

// The text's length, or the refusal.
pub type TextReply = Result<usize, Refusal>;
