// The least value whose root is at least a given one, so that a loop can compare squares and take no
// root.
ghost use Rattle.std.specs.Prelude.{◌≡◌, ◌-◌, ◌*◌, ◌^◌, ◌<◌, ◌≤◌, true, false, from_bits, IfSome};
ghost use Rattle.std.specs.Float.{binary64};
ghost use Rattle.std.specs.Float.Ieee.{lt, le};
ghost use Rattle.ieee.specs.Constants.{nought};
ghost use Rattle.ieee.specs.Root.{root_f};
ghost use Rattle.ieee.specs.Threshold.{Threshold};
ghost use Rattle.ieee.specs.ThresholdSteps.{Between};

use crate::root;

// Whether the root of the value with the bit pattern n is at least b. No pattern is above the
// infinity's, 9218868437227405312, here and below.
fn reaches(b: f64, n: u64) -> bool
    requires { n ≤ 2047 * 2 ^ 52 }
    ensures { result ≡ le b (root_f (from_bits binary64 n)) }
{
    b <= root::root(f64::from_bits(n))
}

// The first pattern whose root is at least b, where that is the guess n or n + 1.
fn from_guess(b: f64, n: u64) -> Option<u64>
    ensures { IfSome result (λ k. Between b (k - 1) k) }
{
    if 9218868437227405312 < n {
        return None;
    }
    if reaches(b, n) {
        if n == 0 || reaches(b, n - 1) {
            return None;
        }
        return Some(n);
    }
    if n < 9218868437227405312 && reaches(b, n + 1) {
        return Some(n + 1);
    }
    None
}

// The first pattern whose root is at least b, a value above zero: found by halving.
fn bisect(b: f64) -> u64
    requires { lt nought b ≡ true }
    ensures { Between b (result - 1) result }
{
    let mut lo: u64 = 0;
    let mut hi: u64 = 9218868437227405312;
    while lo + 1 < hi {
        let mid = lo + (hi - lo) / 2;
        if reaches(b, mid) {
            hi = mid;
        } else {
            lo = mid;
        }
    }
    hi
}

// The least f64 whose root is at least b: `root(q) < b` is then `q` below it, for every q that is
// not below zero. The product of b and the value before b is a guess, of which nothing is promised:
// two roots show whether the answer is there or the one after it.
pub fn root_threshold(b: f64) -> f64
    ensures { Threshold b result }
{
    if b != b {
        return b;
    }
    if b <= 0.0 {
        return 0.0;
    }
    let q = b * f64::from_bits(f64::to_bits(b) - 1);
    if q >= 0.0
        && let Some(n) = from_guess(b, f64::to_bits(q))
    {
        return f64::from_bits(n);
    }
    f64::from_bits(bisect(b))
}
