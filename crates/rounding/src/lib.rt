// f64 operations of the Rust that Rattle lacks, written out: `round_ties_even`, the rounded product, one division of whole
// numbers, and the distance of two accuracies. For the crates above; the tests of acc's range stand in `inspect`.
#![tactic(auto)]

ghost use Rattle.std.specs.Prelude.{◌≡◌, false, ◌+◌, ◌≤◌, ◌<◌, ◌^◌, T, pos};
ghost use Rattle.std.specs.Float.Ieee as Ieee;
ghost use Rattle.std.specs.Float.{fin};
ghost use Rattle.std.specs.Float.Ieee.Nearest.{closest};
ghost use Rattle.rounding.specs.Round.{round_even, product, zero64, one64};
ghost use Rattle.rounding.specs.Distance.{ratio, distance};
ghost use Rattle.rounding.specs.Quotient.{most_dividend, most_divisor, rounded_up};

// An accuracy from 0 to 1; -0.0 counts as 0.
#[derive(Clone, Copy)]
pub struct Acc {
    pub value: f64,
    ghost in_range: { T (Ieee.le zero64 value) × T (Ieee.le value one64) },
}

// The whole number nearest to x, a half to the even one, for x from -0.0 up to 2^51. From 2^52 to 2^53 the f64s are the whole
// numbers: the sum's own rounding, to the nearest and a half to even, is the one asked for, and its bits count on from those of 2^52.
pub fn round_whole(x: f64) -> u64
    requires fact_1 { T (Ieee.le zero64 x) }
    requires fact_2 { T (Ieee.lt x (fin false 1 (pos 51))) }
    ensures { result ≡ round_even x }
{
    let sum = x + 4503599627370496.0;
    f64::to_bits(sum) - 0x4330_0000_0000_0000
}

// The same of a number below 2^31.
pub fn round_ties_even(x: f64) -> u32
    requires fact_1 { T (Ieee.le zero64 x) }
    requires fact_2 { T (Ieee.lt x (fin false 1 (pos 31))) }
    ensures { result ≡ round_even x }
{
    round_whole(x) as u32
}

// acc times n, one f64 product, to the nearest whole number, a half to even; at most n.
pub fn rounded_product(acc: Acc, n: u32) -> u32
    requires { n < 2 ^ 31 }
    ensures value { result ≡ round_even (product acc.value n) }
    ensures upper_bound { result ≤ n }
{
    round_ties_even(acc.value * (n as f64))
}

// p / q as one f64 division.
pub fn ratio_of(p: u32, q: u32) -> f64
    ensures { result ≡ ratio p q }
{
    (p as f64) / (q as f64)
}

// |a - b|, the sign turned by hand.
pub fn distance_of(a: f64, b: f64) -> f64
    ensures { result ≡ distance a b }
{
    let d = a - b;
    if d < 0.0 { -d } else { d }
}

// x / y rounded up.
pub fn div_ceil(x: u32, y: u32) -> u32
    requires { (x ≤ most_dividend) × (0 < y) × (y ≤ most_divisor) }
    ensures { (result ≡ rounded_up x y) × (result ≤ x + y) }
{
    (x + (y - 1)) / y
}

// x / y to the nearest whole number, a half to the even one.
pub fn div_round_ties_even(x: u32, y: u32) -> u32
    requires { (x ≤ most_dividend) × (0 < y) × (y ≤ most_divisor) }
    ensures { result ≡ closest x y }
{
    let whole = x / y;
    let twice = x % y * 2;
    if twice < y {
        whole
    } else if twice > y {
        whole + 1
    } else {
        whole + whole % 2
    }
}
