// Mean, deviation and coefficient of yearly claims (FINMA 5.2.4.2), out of a five-number summary
// and two sample factors. It works in doubles: each operation rounds once, in the paper's order.
#![tactic(auto)]

ghost use Rattle.std.specs.Prelude.{◌≡◌, ◌≤◌};
ghost use Rattle.claims_estimates.specs.Estimates.{double, mean_of, deviation_of, estimates_of};
ghost use Rattle.claims_estimates.specs.Ranked.{Ranked};

// Yearly claims per contract in whole centimes: the lowest, the three quartiles, the second of
// which is the median, and the highest.
#[repr(C)]
#[derive(Clone, Copy)]
pub struct Summary {
    pub lowest: u64,
    pub quartile1: u64,
    pub median: u64,
    pub quartile3: u64,
    pub highest: u64,
}

// What the range and the quartiles' distance are divided by, by the size of the sample.
#[derive(Clone, Copy)]
pub struct SampleFactors {
    pub xi: f64,
    pub eta: f64,
}

// What is estimated of the claims. The coefficient is the deviation over the mean.
#[derive(Clone, Copy)]
pub struct Estimates {
    pub mean: f64,
    pub deviation: f64,
    pub coefficient: f64,
}

// A whole number as a double: none of these is rounded.
fn double(n: u64) -> f64
    requires { n ≤ 80000000 }
    ensures { result ≡ double n }
{
    n as f64
}

// Exact: the sum is far below 2^53, and 8 is a power of two. Ranked stays a `requires` of the three
// functions: C passes any Summary, and a type for those that pass 27 would be the longer.
fn mean(s: Summary) -> f64
    requires { Ranked s }
    ensures { result ≡ mean_of s }
{
    double(s.lowest + 2 * s.quartile1 + 2 * s.median + 2 * s.quartile3 + s.highest) / 8.0
}

fn deviation(s: Summary, factors: SampleFactors) -> f64
    requires { Ranked s }
    ensures { result ≡ deviation_of s factors }
{
    let by_range = double(s.highest - s.lowest) / factors.xi;
    let by_quartiles = double(s.quartile3 - s.quartile1) / factors.eta;
    (by_range + by_quartiles) * 0.5
}

pub fn estimated(claims: Summary, factors: SampleFactors) -> Estimates
    requires { Ranked claims }
    ensures { result ≡ estimates_of claims factors }
{
    let mean = mean(claims);
    let deviation = deviation(claims, factors);
    Estimates {
        mean,
        deviation,
        coefficient: deviation / mean,
    }
}
