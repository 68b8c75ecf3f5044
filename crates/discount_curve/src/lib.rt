// The curve of a book: the divisor of each year with its fraction, from the rates in the header.
// Internal: it asks for an accepted book, which the calls above have from the check.
#![tactic(auto)]

ghost use Rattle.std.specs.Prelude.{◌≡◌, ◌*◌, ◌<◌, ◌≤◌};
ghost use Rattle.arith.specs.Fractions.{IsFraction};
ghost use Rattle.book.specs.Reading.{ValidBook};
ghost use Rattle.valuation.specs.Portfolio.{divisor_of};
ghost use Rattle.discount_curve.specs.Curve.{CurveOf};

use discount::{Curve, YearDivisor};
use std::array;

// 1,000,000 more than the rate of year k. A rate below zero is stored in two's complement, so the
// sum is cut to 32 bits.
pub fn divisor_of(book: &[u8], k: usize) -> u64
    requires { (k < 50)
        × ValidBook 1 book.now }
    ensures { (result ≡ divisor_of book.now k)
        × (990000 ≤ result)
        × (result ≤ 1200000) }
{
    if k == 0 {
        return 1_000_000;
    }
    (le_bytes::read_u32(book, book::CURVE_PLACE + 4 * (k - 1)) + 1_000_000) % 4_294_967_296
}

// 1,000,000 over 2 d in parts of 2^64, rounded down: 1,000,000 times 2^63 over d.
pub fn fraction_of(d: u64) -> u64
    requires { (990000 ≤ d)
        × (d ≤ 1200000) }
    ensures { IsFraction 1000000 (2 * d) result }
{
    let whole = 9_223_372_036_854_775_808 / d;
    let rest = 9_223_372_036_854_775_808 % d;
    1_000_000 * whole + 1_000_000 * rest / d
}

// The divisor of year k, and its fraction: the divisions, made once for all groups and settings.
fn year_divisor(book: &[u8], k: usize) -> YearDivisor
    requires { (k < 50)
        × ValidBook 1 book.now }
    ensures { result.divisor ≡ divisor_of book.now k }
{
    let divisor = divisor_of(book, k);
    YearDivisor {
        divisor,
        fraction: fraction_of(divisor),
    }
}

// The curve of a book.
pub fn curve_of(book: &[u8]) -> Curve
    requires { ValidBook 1 book.now }
    ensures { CurveOf book.now result }
{
    array::from_fn(|k| year_divisor(book, k))
}
