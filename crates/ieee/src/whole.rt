// A float's whole part, floor and ceiling as an integer.
ghost use Rattle.std.specs.Prelude.{◌≡◌, cond};
ghost use Rattle.std.specs.Float.Ieee.{to_signed};
ghost use Rattle.ieee.specs.Whole.{floor_z, ceil_z, biased};
ghost use Rattle.ieee.specs.WholeSteps.{beyond};

use std::num::{nearest_i64_to_f64, saturating_f64_to_i64};

// Rust's `x as i64`: toward zero, to the nearer end of the range where it is out of it, 0 for a NaN.
pub fn cut_to_i64(x: f64) -> i64
    ensures { result ≡ to_signed 63 x }
{
    saturating_f64_to_i64(x)
}

// Rust's `x.floor() as i64`. This and `ceil_to_i64` stay two: one body would take the comparison and the step as arguments.
pub fn floor_to_i64(x: f64) -> i64
    ensures { result ≡ floor_z x }
{
    let t = cut_to_i64(x);
    if x < nearest_i64_to_f64(t) {
        return t.saturating_sub(1);
    }
    t
}

// Rust's `x.ceil() as i64`.
pub fn ceil_to_i64(x: f64) -> i64
    ensures { result ≡ ceil_z x }
{
    let t = cut_to_i64(x);
    if nearest_i64_to_f64(t) < x {
        return t.saturating_add(1);
    }
    t
}

// A column as the tables hold it.
pub fn bias(n: i64) -> u64
    ensures { result ≡ biased n }
{
    (n.clamp(-2147483648, 2147483647) + 2147483648) as u64
}

// 1.5 * 2^52: where it is added to a number below 2^51 in size, that number is rounded to a whole one,
// which is then in the low bits of the sum.
const SHIFTER: f64 = 6755399441055744.0;

// The sum's bits at the first column, -2^31.
const FIRST: u64 = 4843621397089484800;

// The column of a number beyond all columns, or of no number.
fn column_beyond(x: f64) -> u64
    ensures { result ≡ beyond x }
{
    if x < 0.0 {
        return 0;
    }
    if x != x {
        return 2147483648;
    }
    4294967295
}

// A column by its coordinate, rounded down or up, as the tables hold it.
fn column<const DOWN: bool>(x: f64) -> u64
    ensures { result ≡ biased (cond DOWN (floor_z x) (ceil_z x)) }
{
    if -2147483648.0 <= x && x <= 2147483647.0 {
        let rounded = x + SHIFTER;
        let n = f64::to_bits(rounded) - FIRST;
        let whole = rounded - SHIFTER;
        if DOWN {
            return n - (x < whole) as u64;
        }
        return n + (whole < x) as u64;
    }
    column_beyond(x)
}

// The column of a coordinate: its floor, as the tables hold it.
pub fn column_of(x: f64) -> u64
    ensures { result ≡ biased (floor_z x) }
{
    column::<true>(x)
}

// The column where a stretch that ends at x ends, itself not counted: its ceiling, as the tables hold it.
pub fn column_up(x: f64) -> u64
    ensures { result ≡ biased (ceil_z x) }
{
    column::<false>(x)
}
