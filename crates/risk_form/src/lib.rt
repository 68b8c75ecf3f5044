// The quadratic form of four factors with their correlation, and the whole root (FINMA 5.2.1).
#![tactic(auto)]

ghost use Rattle.std.specs.Prelude.{◌≡◌, ◌<◌};
ghost use Rattle.lists.specs.Sums.{signed_sum_below};
ghost use Rattle.signed.specs.Signs.{SizesTo};
ghost use Rattle.risk_form.specs.Form.{term_of, form_of};
ghost use Rattle.risk_form.specs.Root.{IntegerSquareRoot};

use signed::Signed;

// Four factors and their correlation, in the ranges that 29 and 30 leave: no step of the form
// passes 64 bits.
#[derive(Clone, Copy)]
struct CorrelatedFactors {
    correlation: [i64; 16],
    factors: [i64; 4],
    ghost known: { SizesTo 1000 16 correlation },
    ghost small: { SizesTo 1000000 4 factors },
}

impl CorrelatedFactors {
    // Factor i times correlation i j times factor j.
    fn term(&self, i: usize, j: usize) -> Signed
        requires { (i < 4)
            × (j < 4) }
        ensures { result.number ≡ term_of self.now.correlation self.now.factors i j }
    {
        Signed::at(&self.factors, i)
            .times(Signed::at(&self.correlation, 4 * i + j))
            .times(Signed::at(&self.factors, j))
    }

    // The terms of row i, added. No fold: what each sum asks for is the loop's invariant.
    fn row(&self, i: usize) -> Signed
        requires { i < 4 }
        ensures { result.number
            ≡ signed_sum_below (term_of self.now.correlation self.now.factors i) 4 }
    {
        let mut sum = Signed { number: 0 };
        for j in 0usize..4 {
            sum = sum.plus(self.term(i, j));
        }
        sum
    }
}

// The rows, added.
pub fn form(correlation: &[i64; 16], factors: &[i64; 4]) -> Signed
    requires { SizesTo 1000 16 correlation.now
        × SizesTo 1000000 4 factors.now }
    ensures { result.number ≡ form_of correlation.now factors.now }
{
    let correlated = CorrelatedFactors {
        correlation: *correlation,
        factors: *factors,
    };
    let mut sum = Signed { number: 0 };
    for i in 0usize..4 {
        sum = sum.plus(correlated.row(i));
    }
    sum
}

// The whole root.
pub fn root(q: u64) -> u64
    ensures { IntegerSquareRoot q result }
{
    q.isqrt()
}
