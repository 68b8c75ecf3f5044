// A book's curve: the divisor of each year, with the fraction by which amounts go a year back.

ghost use Rattle.std.specs.Prelude.{◌≡◌, ◌*◌, ◌/◌, ◌≤◌};
ghost use Rattle.discount.specs.Fraction.{HasFraction, fraction_prop};

use arith::Weighted;
use cash_flow::Amounts;

// No doubled amount is above that: amounts before a step are at most 10^16.
const MOST_DOUBLED: u64 = 20_000_000_000_000_000;

// The divisor of a year, and 1,000,000 over twice that as a fraction.
#[derive(Clone, Copy)]
pub struct YearDivisor {
    pub divisor: u64,
    pub fraction: u64,
    pub ghost low: { 990000 ≤ divisor },
    pub ghost high: { divisor ≤ 1200000 },
    pub ghost fraction_is: { HasFraction divisor fraction } by { fraction_prop divisor fraction },
}

// Those of the fifty years.
pub type Curve = [YearDivisor; 50];

impl YearDivisor {
    // Premium and outgo a year back, by the fraction. Amounts and divisor are doubled, so that the
    // fraction of every divisor is below one.
    pub fn back(self, amounts: Amounts) -> Amounts
        requires { (amounts.premium ≤ 10000000000000000)
            × (amounts.outgo ≤ 10000000000000000) }
        ensures { (result.premium ≡ amounts.premium * 1000000 / self.divisor)
            × (result.outgo ≡ amounts.outgo * 1000000 / self.divisor) }
    {
        let premium = Weighted {
            amount: 2 * amounts.premium,
            weight: 1_000_000,
            fraction: self.fraction,
        };
        let outgo = Weighted {
            amount: 2 * amounts.outgo,
            weight: 1_000_000,
            fraction: self.fraction,
        };
        let back = arith::two_parts(premium, outgo, 2 * self.divisor, MOST_DOUBLED);
        Amounts {
            premium: back.first,
            outgo: back.second,
        }
    }
}
