// Four differences become scaled factors, in thousand francs (FINMA 5.2.1).
#![tactic(auto)]

ghost use Rattle.std.specs.Prelude.{◌≡◌, true, ◌≤◌};
ghost use Rattle.risk_model.specs.Model.{coefficients_right};
ghost use Rattle.risk_scaling.specs.Factors.{scaled_of, factors_of, factors_small};

use signed::Signed;

const MOST_FACTOR: u64 = 1_000_000;

// A scaled factor. No step can pass 64 bits, whatever the difference.
fn scaled(difference: Signed, coefficient: u64, span: u64) -> Signed
    requires { (coefficient ≤ 1000000)
        × (50 ≤ span)
        × (span ≤ 600) }
    ensures { result.number ≡ scaled_of difference.number coefficient span }
{
    let thousands = difference.size() / 100_000;
    difference.with_size(arith::mul_div(thousands, coefficient, 1000 * span))
}

// The scaled factors of mortality, lapse, costs and claims.
pub fn factors(differences: &[i64; 4], coefficients: &[u64; 4]) -> [i64; 4]
    requires { coefficients_right coefficients.now ≡ true }
    ensures { result ≡ factors_of differences.now coefficients.now }
{
    let mortality = scaled(Signed::at(differences, 0), coefficients[0], 400);
    let lapse = scaled(Signed::at(differences, 1), coefficients[1], 600);
    let costs = scaled(Signed::at(differences, 2), coefficients[2], 400);
    let claims = scaled(Signed::at(differences, 3), coefficients[3], 50);
    [mortality.number, lapse.number, costs.number, claims.number]
}

// Whether no scaled factor passes 1,000,000 either way; 30 where not.
pub fn factors_small(f: &[i64; 4]) -> bool
    ensures { result ≡ factors_small f.now }
{
    f.iter().all(|factor| factor.unsigned_abs() <= MOST_FACTOR)
}
