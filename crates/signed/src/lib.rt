// Numbers with a sign: sums, differences, products, size and sign, and one of an array.
#![tactic(auto)]

ghost use Rattle.std.specs.Prelude.{◌≡◌, ◌+◌, ◌*◌, ◌≤◌, ◌<◌, pos, nat_abs, ◌+ℤ◌, ◌-ℤ◌, ◌*ℤ◌};
ghost use Rattle.std.specs.Int.Signed.{mag};
ghost use Rattle.signed.specs.Signs.{number_at, is_negative, with_sign};

// Sum and difference of two bare numbers, beside those of `Signed`: totals are bare, as C has them,
// and `mag` bounds each sum of eight.
pub fn plus(a: i64, b: i64) -> i64
    requires { mag a + mag b < 9223372036854775807 }
    ensures { (result ≡ a +ℤ b)
        × (mag result ≤ mag a + mag b + 1) }
{
    a + b
}

pub fn minus(a: i64, b: i64) -> i64
    requires { mag a + mag b < 9223372036854775806 }
    ensures { result ≡ a -ℤ b }
{
    a - b
}

// a less b, with its sign.
pub fn less(a: u64, b: u64) -> i64
    requires { (a ≤ 1000000000000000000)
        × (b ≤ 1000000000000000000) }
    ensures { result ≡ pos a -ℤ pos b }
{
    (a as i64) - (b as i64)
}

// A number with a sign in a struct of its own: what a call returns is passed on whole, and a
// caller's facts are about the number itself.
#[derive(Clone, Copy, PartialEq)]
pub struct Signed {
    pub number: i64,
}

impl Signed {
    // Number i of an array.
    pub fn at<const N: usize>(xs: &[i64; N], i: usize) -> Signed
        requires { i < N }
        ensures { result.number ≡ number_at xs.now i }
    {
        Signed { number: xs[i] }
    }

    pub fn plus(self, y: Signed) -> Signed
        requires { nat_abs self.number + nat_abs y.number < 9223372036854775808 }
        ensures { result.number ≡ self.number +ℤ y.number }
    {
        Signed {
            number: self.number + y.number,
        }
    }

    pub fn times(self, y: Signed) -> Signed
        requires { nat_abs self.number * nat_abs y.number < 9223372036854775808 }
        ensures { result.number ≡ self.number *ℤ y.number }
    {
        Signed {
            number: self.number * y.number,
        }
    }

    // Without the sign.
    pub fn size(self) -> u64
        ensures { (result ≡ nat_abs self.number)
            × (result ≤ 9223372036854775808) }
    {
        self.number.unsigned_abs()
    }

    // A size with the number's sign.
    pub fn with_size(self, m: u64) -> Signed
        requires { m ≤ 2000000000000000 }
        ensures { result.number ≡ with_sign self.number m }
    {
        let x = self.number;
        if x < 0 {
            Signed {
                number: -(m as i64),
            }
        } else {
            Signed { number: m as i64 }
        }
    }

    pub fn negative(self) -> bool
        ensures { result ≡ is_negative self.number }
    {
        self.number < 0
    }
}
