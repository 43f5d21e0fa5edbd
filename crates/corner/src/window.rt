// The 5 by 5 cells around a cell as a word: bit 5 * i + j is the cell i columns and j rows from the lowest key on.
ghost use Rattle.std.specs.Prelude.{◌≡◌, ℕ, ◌+◌, ◌*◌, ◌^◌, ◌<◌};
ghost use Rattle.model.specs.Cell.{W};
ghost use Rattle.model.specs.Maps.{AscL, has};
ghost use Rattle.table.specs.Search.{Placed};
ghost use Rattle.corner.specs.Window.{Sees, beside, differing, northeasts, northwests, on, southeasts, southwests, status_at};

use sizes::COLUMN;
use table::place::stands_at;
use table::places::places_of;

// How many rows, and how many columns, a window has.
pub(crate) const SIDE: u64 = 5;

// Which cells have which corner.
#[derive(Clone, Copy)]
pub(crate) struct Corners {
    pub sw: u64,
    pub se: u64,
    pub nw: u64,
    pub ne: u64,
}

// Which of five keys in a row are in the table, where the place of the first of them is known.
fn five(t: &[u64], place: usize, base: u64) -> u64
    requires { Placed t.now base place × (base + 4 < 2 ^ 64) }
    ensures { (result < 32) × (AscL 0 t.now → (j : ℕ) → j < 5 → on result j ≡ has (base + j) t.now) }
{
    let mut at = place;
    let mut bits = 0;
    for j in 0..SIDE {
        if stands_at(t, at, base + j) {
            bits += 1 << j;
            at += 1;
        }
    }
    bits
}

// Which cells of the window are in the table.
pub(crate) fn window(t: &[u64], low: u64) -> u64
    requires { low + (4 * W + 4) < 2 ^ 64 }
    ensures { (result < 2 ^ 25) × (AscL 0 t.now → Sees result t.now low) }
{
    if t.len() == 0 {
        return 0;
    }
    let places = places_of(t, low);
    let mut bits = 0;
    for i in (0..SIDE).rev() {
        bits = five(t, places[i as usize], low + i * COLUMN) + 32 * bits;
    }
    bits
}

// The corners of all cells of a window at once. Those at its border are of no use.
pub(crate) fn corners_of(n: u64) -> Corners
    requires { n < 2 ^ 25 }
    ensures { (result.sw ≡ southwests n) × (result.se ≡ southeasts n) × (result.nw ≡ northwests n) × (result.ne ≡ northeasts n) }
{
    let left = n * 32;
    let right = n / 32;
    let below = n * 2;
    let above = n / 2;
    Corners {
        sw: n ^ (n & (left | below | n * 64)),
        se: n ^ (n & (right | below | n / 16)),
        nw: n ^ (n & (left | above | n * 16)),
        ne: n ^ (n & (right | above | n / 64)),
    }
}

// The cells of a window, and those beside them.
pub(crate) fn beside(n: u64) -> u64
    requires { n < 2 ^ 25 }
    ensures { result ≡ beside n }
{
    let v = n / 2 | n | n * 2;
    v / 32 | v | v * 32
}

// The cells of which a corner differs, but for those of `met`.
pub(crate) fn differing_but(a: Corners, b: Corners, met: u64) -> u64
    ensures { result ≡ differing a.sw b.sw a.se b.se a.nw b.nw a.ne b.ne met }
{
    let d = (a.sw ^ b.sw) | (a.se ^ b.se) | (a.nw ^ b.nw) | (a.ne ^ b.ne);
    d ^ (d & met)
}

// The status of one cell of a window.
pub(crate) fn status_at(w: Corners, c: u64) -> u8
    requires { c < 25 }
    ensures { result ≡ status_at w.sw w.se w.nw w.ne c }
{
    let sw = (w.sw >> c) % 2;
    let se = (w.se >> c) % 2;
    let nw = (w.nw >> c) % 2;
    let ne = (w.ne >> c) % 2;
    (sw + 2 * se + 4 * nw + 8 * ne) as u8
}
