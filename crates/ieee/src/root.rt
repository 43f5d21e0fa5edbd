// The correctly rounded square root. A candidate from float steps, of which nothing is promised, is
// checked exactly in integers; where it fails the root is worked out digit by digit.
ghost use Rattle.std.specs.Prelude.{◌≡◌, ℕ, ◌+◌, ◌*◌, ◌^◌, ◌<◌, ◌≤◌};
ghost use Rattle.ieee.specs.Root.{Rooted, root_units, root_f};
ghost use Rattle.ieee.specs.RootSteps.{Scaled, Rounded, bit_units};

use std::num::wrapping_sub_u64;

// The whole part of the root of m * 2^54, a number of up to 108 binary digits, two of which are
// taken in each turn: `rem` is what the digits so far are above the square of `r`.
fn root_bits(m: u64) -> u64
    requires { m < 2 ^ 54 }
    ensures { Rooted (m * 2 ^ 54) result }
{
    let mut left: u64 = m * 1024;
    let mut rem: u64 = 0;
    let mut r: u64 = 0;
    for _ in 0..54u64 {
        rem = rem * 4 + left / 4611686018427387904;
        left = left % 4611686018427387904 * 4;
        r = r * 2;
        if r * 2 < rem {
            rem = rem - (r * 2 + 1);
            r = r + 1;
        }
    }
    r
}

// The root of m * 2^52 to the nearest whole number, by its digits: one more than needed, rounded.
fn root_slow(m: u64) -> u64
    requires { (0 < m) × (m < 2 ^ 54) }
    ensures { Rounded (m * 2 ^ 52) result }
{
    (root_bits(m) + 1) / 2
}

// What m * 2^52 is above the square of c, worked out in 64 bits from c = a * 2^26 + b, as
// ((m - a * a) * 2^25 - a * b) * 2^27 - b * b; 2^63 or more where c is no close neighbour of the root.
// No `Option`: the last difference too may be 2^63 or more, so its caller would still have that case to test.
fn excess(m: u64, c: u64) -> u64
    requires { c < 2 ^ 53 }
    ensures { result < 2 ^ 63 → c * c + result ≡ m * 2 ^ 52 }
{
    let a = c / 67108864;
    let b = c % 67108864;
    let d = wrapping_sub_u64(m, a * a);
    if 68719476736 <= d {
        return u64::MAX;
    }
    let e = wrapping_sub_u64(d * 33554432, a * b);
    if 68719476736 <= e {
        return u64::MAX;
    }
    wrapping_sub_u64(e * 134217728, b * b)
}

// The same root from a candidate c, where the root is c or one of the next two numbers.
fn root_checked(m: u64, c: u64) -> u64
    requires { (0 < m) × (m < 2 ^ 54) × (c < 2 ^ 53) }
    ensures { Rounded (m * 2 ^ 52) result }
{
    let f = excess(m, c);
    if c * 5 + 6 < f {
        return root_slow(m);
    }
    // two sums and no branch: which of the three it is cannot be predicted
    let mut r = c;
    if c < f {
        r += 1;
    }
    if c * 3 + 2 < f {
        r += 1;
    }
    r
}

// A candidate for the root of t = v * 2^p / 2^52, which lies from 1 to 4, in units of 2^-52, one
// below what the float steps give: 1 / root from t's bit pattern, good to a thirtieth; two steps of
// Newton's, the first with constants fitted to that start; and a step of third order for the root.
fn root_guess(v: u64, p: u64) -> u64
    requires { (v < 2 ^ 53) × (p < 2) }
    ensures { result < 2 ^ 53 }
{
    let i = (1022 + p) * 4503599627370496 + v;
    let t = f64::from_bits(i);
    let x = f64::from_bits(6909647675743469568 - i / 2);
    let y = x * (1.68191390868723 - 0.703952253 * t * x * x);
    let z = y * (1.5 - 0.5 * t * y * y);
    let s = t * z;
    let e = 1.0 - s * z;
    let g = s + s * e * (0.5 + 0.375 * e);
    if g > 0.5 {
        return wrapping_sub_u64(f64::to_bits(g), 4602678819172646913) % 9007199254740992;
    }
    0
}

// The root of v * 2^(g + 52) squared units, a unit being the smallest value, 2^-1074: of any number n
// of units with n * 2^1074 = v * 2^(g + 52). v has 53 digits.
fn root_scaled(v: u64, g: u64) -> f64
    requires { Scaled v g }
    ensures { (n : ℕ) → n * 2 ^ 1074 ≡ v * 2 ^ (g + 52) → result ≡ root_units n }
{
    let p = g % 2;
    let r = root_checked(v * (1 + p), root_guess(v, p));
    f64::from_bits(g / 2 * 4503599627370496 + r)
}

// The root of the positive finite value with the bit pattern b.
fn root_positive(b: u64) -> f64
    requires { (0 < b) × (b < 2047 * 2 ^ 52) }
    ensures { result ≡ root_units (bit_units b) }
{
    if b < 4503599627370496 {
        // no leading digit is understood: as many zeros as are above b's first digit are moved
        // below its last
        let z = u64::leading_zeros(b) as u64;
        return root_scaled(b << (z - 11), 1033 - z);
    }
    root_scaled(
        4503599627370496 + b % 4503599627370496,
        b / 4503599627370496 + 1021,
    )
}

// IEEE 754's squareRoot, rounded to the nearest, ties to even: Rust's `x.sqrt()`.
pub fn root(x: f64) -> f64
    ensures { result ≡ root_f x }
{
    if x > 0.0 {
        let b = f64::to_bits(x);
        if b < 9218868437227405312 {
            return root_positive(b);
        }
        return x;
    }
    if x < 0.0 {
        return 0.0 / 0.0;
    }
    x
}
