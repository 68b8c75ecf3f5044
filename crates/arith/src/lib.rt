// A product divided and rounded down, within 64 bits. For the crates above, which have shown that
// the figures fit.
#![tactic(auto)]

ghost use Rattle.std.specs.Prelude.{◌≡◌, ◌+◌, ◌*◌, ◌/◌, ◌%◌, ◌^◌, ◌<◌, ◌≤◌};
ghost use Rattle.arith.specs.Fractions.{IsFraction, near_top};

// x times y over d, rounded down. With x = q d + r it is q y + r y / d, whose products fit where
// the whole product may not.
pub fn mul_div(x: u64, y: u64, d: u64) -> u64
    requires { (0 < d)
        × ((x / d) * y + d * y < 2 ^ 64) }
    ensures { result ≡ (x * y) / d }
{
    (x / d) * y + (x % d) * y / d
}

// The upper half of a product of 128 bits, from the halves of its factors. The compiler makes one
// multiplication of it.
pub fn mul_high(a: u64, b: u64) -> u64
    ensures { result ≡ (a * b) / 18446744073709551616 }
{
    let al = a % 4_294_967_296;
    let ah = a / 4_294_967_296;
    let bl = b % 4_294_967_296;
    let bh = b / 4_294_967_296;
    let u = ah * bl + al * bl / 4_294_967_296;
    let v = al * bh + u % 4_294_967_296;
    ah * bh + u / 4_294_967_296 + v / 4_294_967_296
}

// x times y over 1,000,000,000, rounded down: a share of x in billionths. 1,000,000,000 is 512
// times 1,953,125; raised by 2^22 and 2^33 the factors have the product over 512 as their product's
// upper half.
pub fn share(x: u64, y: u64) -> u64
    requires { (x ≤ 1000000000000000)
        × (y ≤ 1300000000) }
    ensures { result ≡ (x * y) / 1000000000 }
{
    if x < 4_300_000_000_000 {
        return mul_high(x * 4_194_304, y * 8_589_934_592) / 1_953_125;
    }
    mul_div(x, y, 1_000_000_000)
}

// The lower half of a product of 128 bits. Beside `mul_high` of the same factors it costs nothing.
pub fn mul_low(a: u64, b: u64) -> u64
    ensures { result ≡ (a * b) % 18446744073709551616 }
{
    let al = a % 4_294_967_296;
    let ah = a / 4_294_967_296;
    let bl = b % 4_294_967_296;
    let bh = b / 4_294_967_296;
    let cross = (al * bh % 4_294_967_296 + ah * bl % 4_294_967_296) % 4_294_967_296;
    std::num::wrapping_add_u64(cross * 4_294_967_296, al * bl)
}

// Whether the upper half of x times a fraction may be one less than the quotient, for x up to
// `most`: what the fraction lacks, at most x, may carry where the lower half ends so near below
// 2^64.
pub fn may_be_low(x: u64, fraction: u64, most: u64) -> bool
    ensures { result ≡ near_top most (x * fraction) }
{
    u64::MAX - most < mul_low(x, fraction)
}

// x times w over d, where q is that, rounded down, or one too few. What is left says: it is below
// 2 d, so its lower half is all of it.
pub fn corrected(x: u64, w: u64, d: u64, q: u64) -> u64
    requires { (d < 9223372036854775808)
        × (q < 18446744073709551615)
        × (q * d ≤ x * w)
        × (x * w < q * d + 2 * d) }
    ensures { result ≡ (x * w) / d }
{
    let left = std::num::wrapping_sub_u64(mul_low(x, w), mul_low(q, d));
    if left < d { q } else { q + 1 }
}

// Two parts of amounts over one divisor.
#[derive(Clone, Copy)]
pub struct Two {
    pub first: u64,
    pub second: u64,
}

// An amount, its weight over a divisor, and the fraction that weight over divisor is.
#[derive(Clone, Copy)]
pub struct Weighted {
    pub amount: u64,
    pub weight: u64,
    pub fraction: u64,
}

// Each amount times its weight over d, rounded down, by its fraction: no division. The amounts are
// up to `most`. One branch serves both: where either upper half may be one too few, both are
// corrected.
pub fn two_parts(one: Weighted, other: Weighted, d: u64, most: u64) -> Two
    requires { (one.amount ≤ most)
        × (other.amount ≤ most)
        × (0 < d)
        × (d < 9223372036854775808)
        × IsFraction one.weight d one.fraction
        × IsFraction other.weight d other.fraction }
    ensures { (result.first ≡ (one.amount * one.weight) / d)
        × (result.second ≡ (other.amount * other.weight) / d) }
{
    let first = mul_high(one.amount, one.fraction);
    let second = mul_high(other.amount, other.fraction);
    let first_may_be_low = may_be_low(one.amount, one.fraction, most);
    let second_may_be_low = may_be_low(other.amount, other.fraction, most);
    if first_may_be_low || second_may_be_low {
        return Two {
            first: corrected(one.amount, one.weight, d, first),
            second: corrected(other.amount, other.weight, d, second),
        };
    }
    Two { first, second }
}
