// What is refused of a radius (RULES 4.1: refusal 2), its shift and its reach.
ghost use Rattle.std.specs.Prelude.{◌≡◌};
ghost use Rattle.model.specs.Cell.{reach};
ghost use Rattle.model.specs.Map.{shift_of};
ghost use Rattle.model.specs.Refusal.{bad_radius};

use sizes::SHIFT;

// 2: the radius. Minus zero passes.
pub fn bad_radius(size: f64, radius: f64) -> bool
    ensures { result ≡ bad_radius size radius }
{
    !(0.0 <= radius && radius < f64::INFINITY)
        || SHIFT < ieee::whole::ceil_to_i64(radius / size + 0.5)
}

// s = ceil(r/c + 0.5) (`calculate_cell_shift`)
pub fn shift_of(size: f64, radius: f64) -> u64
    ensures { result ≡ shift_of size radius }
{
    ieee::whole::ceil_to_i64(radius / size + 0.5).max(0) as u64
}

// How many cells away a changed cell can matter for a point.
pub fn reach_of(s: u64) -> u64
    ensures { result ≡ reach s }
{
    s.saturating_sub(1)
}
