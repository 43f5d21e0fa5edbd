// The same place in five neighbouring columns looked for in a table at once: the five searches do not wait for each other.
ghost use Rattle.std.specs.Prelude.{◌≡◌, ◌+◌, ◌*◌, ◌^◌, ◌<◌, ◌≤◌, length, get_or};
ghost use Rattle.model.specs.Cell.{W};
ghost use Rattle.table.specs.Search.{Each, Placed, begun, looked};

use crate::look::{begin, exponent, look, power};
use sizes::{COLUMN, FOUR_COLUMNS};

// The five searches begin.
fn begin_all(t: &[u64], p: usize, low: u64, f: &mut [usize; 5])
    requires { (0 < p) × (p ≤ length t.now) × (low + 4 * W < 2 ^ 64) }
    ensures { Each (λ i at. at ≡ begun t.now p (low + i * W)) f.new }
{
    for i in 0..5 {
        f[i] = begin(t, p, low + i as u64 * COLUMN);
    }
}

// One look of each.
fn look_all(t: &[u64], s: u64, low: u64, f: &mut [usize; 5])
    requires { (s < 64) × (low + 4 * W < 2 ^ 64) × Each (λ i at. at + 2 ^ s ≤ length t.now) f.old }
    ensures { Each (λ i at. at ≡ looked t.now (get_or f.old i 0) (2 ^ s) (low + i * W)) f.new }
{
    for i in 0..5 {
        f[i] = look(t, f[i], s, low + i as u64 * COLUMN);
    }
}

fn places_from(t: &[u64], low: u64) -> [usize; 5]
    requires { (low + 4 * W < 2 ^ 64) × (0 < length t.now) }
    ensures { Each (λ i at. Placed t.now (low + i * W) at) result }
{
    let first = exponent(t.len());
    let mut f = [0; 5];
    begin_all(t, power(first), low, &mut f);
    for s in (0..first).rev() {
        look_all(t, s, low, &mut f);
    }
    look_all(t, 0, low, &mut f);
    f
}

// From here on the last of five neighbouring columns is beyond all keys.
const NO_FIFTH: u64 = u64::MAX - FOUR_COLUMNS + 1;

// The places of the keys low, low + COLUMN, .. in the table, if all five are keys.
pub fn places_of(t: &[u64], low: u64) -> [usize; 5]
    ensures { low + 4 * W < 2 ^ 64 → Each (λ i at. Placed t.now (low + i * W) at) result }
{
    if t.len() == 0 || NO_FIFTH <= low {
        return [0; 5];
    }
    places_from(t, low)
}
