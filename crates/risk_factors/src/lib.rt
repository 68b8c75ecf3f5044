// Four differences and a risk model become a deviation, by way of the scaled factors (FINMA 5.2.1).
#![tactic(auto)]

ghost use Rattle.std.specs.Prelude.{◌≡◌};
ghost use Rattle.verdict.specs.Verdicts.{refused};
ghost use Rattle.risk_factors.specs.Replies.{deviation_reply_for, factors_reply};

use risk_model::RiskModel;
use risk_scaling::{factors, factors_small};

// Refusal and place are 0 where accepted; the deviation, in thousand francs, is 0 where refused. C
// has this struct as it is, so it is no `Result`.
#[repr(C)]
#[derive(Clone, Copy)]
pub struct DeviationReply {
    pub refusal: u64,
    pub place: usize,
    pub deviation: u64,
}

// A refusal, in the struct that C has.
fn refused(number: u64) -> DeviationReply
    ensures { result ≡ deviation_reply_for (refused number 0) 0 }
{
    DeviationReply {
        refusal: number,
        place: 0,
        deviation: 0,
    }
}

// The deviation of four differences, or the first refusal: 29 before the coefficients are used, 30
// before the form is.
pub fn of_differences(differences: &[i64; 4], model: RiskModel) -> DeviationReply
    ensures { result ≡ factors_reply differences.now model }
{
    if !risk_model::model_valid(model) {
        return refused(29);
    }
    let f = factors(differences, &model.coefficients);
    if !factors_small(&f) {
        return refused(30);
    }
    let sum = risk_form::form(&model.correlation, &f);
    if sum.negative() {
        return refused(31);
    }
    DeviationReply {
        refusal: 0,
        place: 0,
        deviation: risk_form::root(sum.size() / 1000),
    }
}
