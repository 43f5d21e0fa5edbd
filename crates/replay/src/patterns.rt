// What the words of a line mean: sixteen hexadecimal digits are the pattern of a float, or the two's complement of a number.
ghost use Rattle.std.specs.Prelude.{◌≡◌, ◌<◌};
ghost use Rattle.plane.specs.Values.{pt};
ghost use Rattle.replay.specs.Lines.{point_at};
ghost use Rattle.replay.specs.Patterns.{digit_of, pattern_at, float_of, pattern_of, signed_of, integer_of};

use ieee::bits::float_of;
use plane::point::Point;

// A digit of a pattern; any other byte counts as 0.
#[tactic(auto, unfolding(crate::specs::Patterns::digit_of))]
fn digit(b: u8) -> u64
    ensures { (result ≡ digit_of b) × (result < 16) }
{
    match b {
        b'a'..=b'f' => (b - b'a') as u64 + 10,
        b'0'..=b'9' => (b - b'0') as u64,
        _ => 0,
    }
}

// The pattern whose sixteen digits begin at `from`; 0 where the line ends before, as it promises.
#[tactic(auto, unfolding(crate::specs::Patterns::pattern_at, crate::specs::Patterns::hex))]
pub fn pattern_at(line: &[u8], from: usize) -> u64
    ensures { result ≡ pattern_at line.now from }
{
    if line.len() < 16 || from > line.len() - 16 {
        return 0;
    }
    let mut v: u64 = 0;
    for b in &line[from..from + 16] {
        v = v % 1152921504606846976 * 16 + digit(*b);
    }
    v
}

pub fn float_at(line: &[u8], from: usize) -> f64
    ensures { result ≡ float_of (pattern_at line.now from) }
{
    float_of(pattern_at(line, from))
}

// Two operands, one after the other. (Every line is shorter than a byte can count.)
pub fn point_at(line: &[u8], from: u8) -> Point
    ensures { pt result ≡ point_at line.now from }
{
    Point {
        x: float_at(line, from as usize),
        y: float_at(line, from as usize + 17),
    }
}

// A NaN's pattern is not fixed, so the list has one for all.
#[tactic(auto, using(ieee::proofs::Picks::is_nan_lem, ieee::proofs::Picks::no_nan), unfolding(crate::specs::Patterns::pattern_of))]
pub fn pattern_of(x: f64) -> u64
    ensures { result ≡ pattern_of x }
{
    if x != x {
        return 9221120237041090560;
    }
    f64::to_bits(x)
}

// Two's complement.
#[tactic(auto, unfolding(crate::specs::Patterns::signed_of))]
pub fn signed(n: i64) -> u64
    ensures { result ≡ signed_of n }
{
    n.cast_unsigned()
}

#[tactic(auto, unfolding(crate::specs::Patterns::integer_of))]
fn integer_of(pattern: u64) -> i64
    ensures { result ≡ integer_of pattern }
{
    pattern.cast_signed()
}

pub fn integer_at(line: &[u8], from: usize) -> i64
    ensures { result ≡ integer_of (pattern_at line.now from) }
{
    integer_of(pattern_at(line, from))
}
