// The place of a key in a table.
ghost use Rattle.std.specs.Prelude.{◌≡◌, ◌≤◌, length};
ghost use Rattle.model.specs.Maps.{AscL, has};
ghost use Rattle.table.specs.Search.{Found};
ghost use Rattle.table.specs.Tables.{rank, stands};

use crate::look::{begin, exponent, look, power};

// How many keys are below k: where k is, or would be.
pub fn place(t: &[u64], k: u64) -> usize
    ensures { (result ≤ length t.now) × (AscL 0 t.now → result ≡ rank k t.now) }
{
    if t.len() == 0 {
        return 0;
    }
    let first = exponent(t.len());
    let mut at = begin(t, power(first), k);
    for s in (0..first).rev() {
        at = look(t, at, s, k);
    }
    look(t, at, 0, k)
}

// Whether k is the key at a place.
pub fn stands_at(t: &[u64], at: usize, k: u64) -> bool
    ensures { result ≡ stands k at t.now }
{
    at < t.len() && k == t[at]
}

// The place of k: where it is, or else where it would be.
pub(crate) fn find(t: &[u64], k: u64) -> Result<usize, usize>
    ensures { Found t.now k result }
{
    let here = place(t, k);
    if stands_at(t, here, k) {
        Ok(here)
    } else {
        Err(here)
    }
}

pub fn contains(t: &[u64], k: u64) -> bool
    ensures { AscL 0 t.now → result ≡ has k t.now }
{
    if t.len() == 0 {
        return false;
    }
    let at = place(t, k);
    // Where k would come after the last key, the last is looked at, which is below k: no branch depends on it.
    let i = at - (at == t.len()) as usize;
    k == t[i]
}
