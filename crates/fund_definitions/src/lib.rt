// Sizes of a fund file and a table file, and the reply for two funds on the same tables. The
// definitions and theorems of one fund and of both stand in specs and proofs, their code in
// `fund_arguments`, `fund_totals` and `funds`.
#![tactic(auto)]

use book::{CURVE_PLACE, HEADER_SIZE};
use verdict::Verdict;

// What a fund file has before its records.
pub const FRONT_SIZE: usize = CURVE_PLACE;

// The table file.
pub const TABLE_SIZE: usize = HEADER_SIZE - CURVE_PLACE;

// Each accepted with n, or refused.
#[derive(Clone, Copy)]
pub struct FundsReply {
    pub first: Verdict,
    pub second: Verdict,
}
