// Absolute value, the lesser and the greater of two floats.
ghost use Rattle.std.specs.Prelude.{◌≡◌, is_nan, cond};
ghost use Rattle.ieee.specs.Pick.{abs_f, min_f, max_f};

// Rust's `x.abs()`: the sign is dropped, a zero's too, and a NaN stays a NaN.
#[tactic(auto, using(crate::proofs::Picks::abs_is))]
pub fn abs(x: f64) -> f64
    ensures { result ≡ abs_f x }
{
    x.abs()
}

// The value b where a is a NaN or `other` says so, and else a.
fn pick(a: f64, b: f64, other: bool) -> f64
    ensures { result ≡ cond (is_nan a) b (cond other b a) }
{
    if a.is_nan() || other { b } else { a }
}

// Rust's `a.min(b)`: the other where one is a NaN, and a where the two are equal.
#[tactic(auto, unfolding(crate::specs::Pick::min_f))]
pub fn min(a: f64, b: f64) -> f64
    ensures { result ≡ min_f a b }
{
    pick(a, b, b < a)
}

// Rust's `a.max(b)`: the other where one is a NaN, and a where the two are equal.
#[tactic(auto, unfolding(crate::specs::Pick::max_f))]
pub fn max(a: f64, b: f64) -> f64
    ensures { result ≡ max_f a b }
{
    pick(a, b, a < b)
}
