// Whether contents are refused: the first rule that they break, with place 0. The definition is
// book_contents/specs/Limits, and the functions here read in its order.
#![tactic(auto)]

ghost use Rattle.std.specs.Prelude.{◌≡◌};
ghost use Rattle.book_contents.specs.Contents.{given_lists};
ghost use Rattle.book_contents.specs.Limits.{check_given_tables, check_lists, check_contents};

use book::{MOST_AMOUNT, MOST_COUNT, MOST_RATE};
use book_contents::{ByKind, Values};
use book_ranges::{check_curve, check_edition, check_most};
use book_sizes::{NO_CLASS, check_lengths, total};
use verdict::Verdict;

// Refusals 6, 7 and 8.
#[tactic(auto, unfolding(book_contents::specs::Limits::check_given_tables, verdict::specs::Verdicts::first_refusal))]
fn check_tables(cost: &[u64], curve: &[i64], mortality: &[u64]) -> Verdict
    ensures { result ≡ check_given_tables cost.now curve.now
        mortality.now }
{
    check_most(cost, MOST_RATE, 6)?;
    check_curve(curve)?;
    check_most(mortality, MOST_RATE, 8)
}

// Refusal 12.
#[tactic(auto, unfolding(book_contents::specs::Limits::check_lists, verdict::specs::Verdicts::first_refusal))]
fn check_lists(lists: ByKind<&[u64]>) -> Verdict
    ensures { result ≡ check_lists lists.entry.counts.now lists.entry.lapses.now
        lists.entry.premiums.now lists.entry.claims.now }
{
    check_most(lists.counts, MOST_COUNT, 12)?;
    check_most(lists.lapses, MOST_RATE, 12)?;
    check_most(lists.premiums, MOST_AMOUNT, 12)?;
    check_most(lists.claims, MOST_AMOUNT, 12)
}

// What stands against writing the contents into a buffer of so many bytes.
#[tactic(auto, unfolding(book_contents::specs::Limits::check_contents, verdict::specs::Verdicts::first_refusal))]
pub fn check_contents(values: Values, lists: ByKind<&[u64]>, capacity: usize) -> Verdict
    ensures { result ≡ check_contents (given_lists values lists.entry) capacity }
{
    let first = values.first;
    let cost = values.cost;
    let curve = values.curve;
    let mortality = values.mortality;
    check_most(&first, NO_CLASS, 11)?;
    check_lengths(total(&first), lists.lengths(), capacity)?;
    check_edition(values.edition, values.men, values.women, values.year)?;
    check_tables(&cost, &curve, &mortality)?;
    check_lists(lists)
}
