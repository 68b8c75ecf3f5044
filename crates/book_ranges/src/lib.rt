// Numbers that Write takes, each in its range: lists, the curve, and the edition with its
// percentages and the year. The definition is book_contents/specs/Limits; places are 0.
#![tactic(auto)]

ghost use Rattle.std.specs.Prelude.{◌≡◌};
ghost use Rattle.book_contents.specs.Limits.{check_most, curve_rate, check_curve};
ghost use Rattle.book_contents.specs.Limits.{check_given_percents, check_edition};

use book::{FIRST_YEAR, LAST_YEAR, MOST_PERCENT};
use verdict::{Verdict, need};

// The curve's range, which the book says by CURVE_LIFT and CURVE_SPAN, as signed numbers.
const LOWEST_RATE: i64 = -10_000;

const HIGHEST_RATE: i64 = 200_000;

// Refused with the number where one of the list is above the most.
pub fn check_most(list: &[u64], most: u64, number: u64) -> Verdict
    ensures { result ≡ check_most number most list.now }
{
    for x in list {
        need(*x <= most, number, 0)?;
    }
    Ok(0)
}

// Within the curve's range.
fn curve_rate(x: i64) -> bool
    ensures { result ≡ curve_rate x }
{
    if x < LOWEST_RATE {
        return false;
    }
    x <= HIGHEST_RATE
}

// Refusal 7. Beside `check_most`: a rate has a sign and two bounds, and one function of both would
// be no plainer.
pub fn check_curve(curve: &[i64]) -> Verdict
    ensures { result ≡ check_curve curve.now }
{
    for x in curve {
        need(curve_rate(*x), 7, 0)?;
    }
    Ok(0)
}

// Refusal 23 of edition 2, 4 of edition 1. Of values, with place 0: one function for these and a
// book's bytes, with their places, would be no plainer.
#[tactic(auto, unfolding(book_contents::specs::Limits::check_given_percents, verdict::specs::Verdicts::first_refusal))]
fn check_percents(edition: u64, men: u64, women: u64) -> Verdict
    ensures { result ≡ check_given_percents edition men women }
{
    if edition == 2 {
        let of_men = le_bytes::within(1, MOST_PERCENT, men as usize);
        let of_women = le_bytes::within(1, MOST_PERCENT, women as usize);
        need(of_men, 23, 0)?;
        return need(of_women, 23, 0);
    }
    need(men == 0, 4, 0)?;
    need(women == 0, 4, 0)
}

// Refusals 2, 4 and 23.
#[tactic(auto, unfolding(book_contents::specs::Limits::check_edition, verdict::specs::Verdicts::first_refusal))]
pub fn check_edition(edition: u64, men: u64, women: u64, year: u64) -> Verdict
    ensures { result ≡ check_edition edition men women year }
{
    need(le_bytes::within(1, 2, edition as usize), 2, 0)?;
    need(le_bytes::within(FIRST_YEAR, LAST_YEAR, year as usize), 4, 0)?;
    check_percents(edition, men, women)
}
