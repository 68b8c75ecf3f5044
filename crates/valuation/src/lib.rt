// What the calls Group and Totals answer.

#![tactic(auto)]

use verdict::Refusal;

// The liability of a product group, and n.
#[derive(Clone, Copy)]
pub struct Valued {
    pub liability: i64,
    pub n: u64,
}

// What Group answers.
pub type GroupReply = Result<Valued, Refusal>;

// Refusal and place are 0 where the book is accepted; every other field is 0 where it is refused.
// C has this struct as it is, so it is no `Result`.
#[repr(C)]
#[derive(Clone, Copy)]
pub struct TotalsReply {
    pub refusal: u64,
    pub place: usize,
    pub n: u64,
    pub totals: [i64; 8],
    pub differences: [i64; 4],
}
