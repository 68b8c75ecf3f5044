// The risk model of FINMA 5.2.1: four coefficients of variation and their correlation, and the
// rules that they keep.
#![tactic(auto)]

ghost use Rattle.std.specs.Prelude.{◌≡◌, ◌<◌};
ghost use Rattle.risk_model.specs.Model.{coefficients_right, right_at, correlation_right};
ghost use Rattle.risk_model.specs.Model.{model_valid};

// The coefficients of variation of mortality, lapse, costs and claims in millionths, and their
// correlation in thousandths, row by row: that of factors i and j, 0 to 3, stands at 4 i + j.
#[repr(C)]
#[derive(Clone, Copy)]
pub struct RiskModel {
    pub coefficients: [u64; 4],
    pub correlation: [i64; 16],
}

const MOST_COEFFICIENT: u64 = 1_000_000;

const MOST_CORRELATION: u64 = 1000;

fn coefficients_valid(coefficients: &[u64; 4]) -> bool
    ensures { result ≡ coefficients_right coefficients.now }
{
    coefficients
        .iter()
        .all(|coefficient| *coefficient <= MOST_COEFFICIENT)
}

fn valid_at(correlation: &[i64; 16], i: usize, j: usize) -> bool
    requires { (i < 4)
        × (j < 4) }
    ensures { result ≡ right_at correlation.now i j }
{
    let x = correlation[4 * i + j];
    let mirrored = correlation[4 * j + i];
    (x.unsigned_abs() <= MOST_CORRELATION) & (x == mirrored) & ((i != j) | (x == 1000))
}

fn correlation_valid(correlation: &[i64; 16]) -> bool
    ensures { result ≡ correlation_right correlation.now }
{
    (0usize..16).all(|k| valid_at(correlation, k / 4, k % 4))
}

// 29 looks at the whole model.
pub fn model_valid(model: RiskModel) -> bool
    ensures { result ≡ model_valid model }
{
    coefficients_valid(&model.coefficients) & correlation_valid(&model.correlation)
}
