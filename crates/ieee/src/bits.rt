// Floats of bit patterns.
ghost use Rattle.std.specs.Prelude.{◌≡◌, from_bits};
ghost use Rattle.std.specs.Float.{binary64};

// Rust's `f64::from_bits`. Rattle makes no float of a NaN's pattern, so for each this gives the NaN that a division gives.
pub fn float_of(pattern: u64) -> f64
    ensures { result ≡ from_bits binary64 pattern }
{
    if pattern % 9223372036854775808 > 9218868437227405312 {
        return 0.0 / 0.0;
    }
    f64::from_bits(pattern)
}
