// The spread of yearly claims (FINMA 5.2.4.2): mean and coefficient out of a five-number summary
// and two sample factors, or what is refused of them.
#![tactic(auto)]

ghost use Rattle.std.specs.Prelude.{◌≡◌};
ghost use Rattle.claims_variation.specs.Refusals.{rising, within_limit, bad_factor};
ghost use Rattle.claims_variation.specs.Refusals.{check_spread};
ghost use Rattle.claims_variation.specs.Replies.{SpreadContract};

use claims_estimates::{SampleFactors, Summary};
use verdict::{Refusal, Verdict, need};

// Mean and coefficient; the mean alone where all claims are alike.
#[derive(Clone, Copy)]
pub enum Variation {
    Coefficient(f64, f64),
    Level(f64),
}

// What the claims are found to be, or the refusal.
pub type SpreadReply = Result<Variation, Refusal>;

const HIGHEST_CLAIMS: u64 = 10_000_000;

const LEAST_FACTOR: f64 = 0.0009765625;

const HIGHEST_FACTOR: f64 = 1000.0;

fn rising(s: Summary) -> bool
    ensures { result ≡ rising s }
{
    (s.lowest <= s.quartile1)
        & (s.quartile1 <= s.median)
        & (s.median <= s.quartile3)
        & (s.quartile3 <= s.highest)
}

fn within_limit(s: Summary) -> bool
    ensures { result ≡ within_limit s }
{
    (s.lowest <= HIGHEST_CLAIMS)
        & (s.quartile1 <= HIGHEST_CLAIMS)
        & (s.median <= HIGHEST_CLAIMS)
        & (s.quartile3 <= HIGHEST_CLAIMS)
        & (s.highest <= HIGHEST_CLAIMS)
}

// What is not a number differs from itself, and nothing else does.
fn bad_factor(x: f64) -> bool
    ensures { result ≡ bad_factor x }
{
    (x < LEAST_FACTOR) | (x > HIGHEST_FACTOR) | (x != x)
}

// 27 is tested before 28, and both before the claims may be level.
#[tactic(auto, unfolding(crate::specs::Refusals::check_spread, verdict::specs::Verdicts::first_refusal))]
fn check(s: Summary, factors: SampleFactors) -> Verdict
    ensures { result ≡ check_spread s factors }
{
    let ranked = rising(s) & within_limit(s) & (0 < s.highest);
    let good = !(bad_factor(factors.xi) | bad_factor(factors.eta));
    need(ranked, 27, 0)?;
    need(good, 28, 0)
}

// Mean and coefficient of yearly claims, 'level' with the mean where all are alike, or the first
// refusal.
pub fn spread(claims: Summary, factors: SampleFactors) -> SpreadReply
    ensures { SpreadContract claims factors result }
{
    check(claims, factors)?;
    let estimates = claims_estimates::estimated(claims, factors);
    if claims.lowest == claims.highest {
        Ok(Variation::Level(estimates.mean))
    } else {
        Ok(Variation::Coefficient(estimates.mean, estimates.coefficient))
    }
}
