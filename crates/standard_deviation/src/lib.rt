// The call Deviation: one standard deviation of the four risk factors of a book (FINMA 5.2.1).
#![tactic(auto)]

ghost use Rattle.standard_deviation.specs.Deviation.{DeviationContract};

use risk_factors::DeviationReply;
use risk_model::RiskModel;

// The deviation in thousand francs, or the first refusal: the book's as Totals gives them, then
// those of the model.
pub fn deviation(book: &[u8], model: RiskModel) -> DeviationReply
    ensures { DeviationContract book.now model result }
{
    let t = totals::totals(book);
    let refusal = t.refusal;
    if refusal != 0 {
        return DeviationReply {
            refusal,
            place: t.place,
            deviation: 0,
        };
    }
    let differences = t.differences;
    risk_factors::of_differences(&differences, model)
}
