// A table of a chain's rates and amounts, a row for each year that a cell can reach: what lives on
// and what stays at the weights that occur, premium and claims, each with the fraction by which
// shares are taken without a division. Its layout, and how a rate is stored.
// Internal: the functions ask for the ranges of an accepted book's rates.
#![tactic(auto)]

ghost use Rattle.std.specs.Prelude.{◌≡◌, ◌+◌, ◌<◌, ◌≤◌, length};
ghost use Rattle.arith.specs.Fractions.{IsFraction};
ghost use Rattle.valuation.specs.Portfolio.{one_less};
ghost use Rattle.rate_table.specs.Rows.{row_count};
ghost use Rattle.rate_table.specs.Puts.{Put, ThreeMore};

// A row for each year that a cell can reach. Its columns: what survives at three weights and what
// persists at three, premium and claims, as fractions; and in the same order, RATES columns
// further, the rates.
pub const ROWS: usize = 170;

pub const COLUMNS: usize = 16;

pub const RATES: usize = 8;

pub const SURVIVAL: usize = 0;

pub const PERSISTENCY: usize = 3;

pub const PREMIUM: usize = 6;

pub const CLAIMS: usize = 7;

pub type RateTable = [u64; ROWS * COLUMNS];

// One less a rate in millionths at a weight in thousandths, in billionths: none where the weighted
// rate is one or more.
fn one_less(rate: u64, weight: u64) -> u64
    requires { (rate ≤ 1000000)
        × (weight ≤ 1300) }
    ensures { (result ≡ one_less rate weight)
        × (result ≤ 1000000000) }
{
    let weighted = rate * weight;
    if weighted < 1_000_000_000 {
        1_000_000_000 - weighted
    } else {
        0
    }
}

// A rate in billionths as a fraction of 2^64, rounded down.
fn fraction_of(rate: u64) -> u64
    requires { rate ≤ 1000000000 }
    ensures { IsFraction rate 1000000000 result }
{
    if rate == 1_000_000_000 {
        return u64::MAX;
    }
    rate * 18_446_744_073 + rate * 709_551_616 / 1_000_000_000
}

// Stores a rate and, eight places before it, its fraction.
pub fn put(rows: &mut [u64], at: usize, rate: u64)
    requires { (at + 8 < length rows.old)
        × (rate ≤ 1000000000) }
    ensures { Put rows.old rows.new at rate }
{
    rows[at] = fraction_of(rate);
    rows[at + RATES] = rate;
}

// The weights of mortality or of lapse: in the base setting, and where it is up and down.
#[derive(Clone, Copy)]
pub struct Weights {
    pub base: u64,
    pub up: u64,
    pub down: u64,
}

// Stores three columns of row r from column n on: what a rate leaves at three weights.
pub fn put_three(rows: &mut RateTable, r: usize, n: usize, rate: u64, weights: Weights)
    requires { (r < row_count)
        × (n ≤ 3)
        × (rate ≤ 1000000)
        × (weights.base ≤ 1300)
        × (weights.up ≤ 1300)
        × (weights.down ≤ 1300) }
    ensures { ThreeMore rows.old rows.new r n rate weights }
{
    let at = COLUMNS * r + n;
    put(rows, at, one_less(rate, weights.base));
    put(rows, at + 1, one_less(rate, weights.up));
    put(rows, at + 2, one_less(rate, weights.down));
}
