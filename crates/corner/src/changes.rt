// The cells whose status a batch altered. The 5 by 5 cells around a confirmed cell decide what it adds: the statuses of
// the nine in the middle, before and after, and which of the nine were met, being beside an earlier confirmed cell.
ghost use Rattle.std.specs.Prelude.{◌≡◌, List, ℕ, ◌+◌, ◌*◌, ◌^◌, ◌<◌, ◌≤◌, length};
ghost use Rattle.model.specs.Batch.{Batch, corner_changes};
ghost use Rattle.model.specs.Cell.{W};
ghost use Rattle.model.specs.Maps.{AscL, keys};
ghost use Rattle.table.specs.Listed.{Listed, Unlisted};
ghost use Rattle.table.specs.Tables.{All};
ghost use Rattle.corner.specs.Changes.{Inner, Toggled, numbered};
ghost use Rattle.corner.specs.Added.{Added, Given, fresh_at};
ghost use Rattle.corner.specs.Window.{gathered, picked_at};

use crate::window::{Corners, SIDE, beside, corners_of, differing_but, status_at, window};
use sizes::{COLUMN, TWO_COLUMNS};

// From the lowest cell of a window to the first of its nine inner cells, and to the one in the middle; the first key that
// is in the middle of no window.
const INNER: u64 = COLUMN + 1;

const MIDDLE: u64 = TWO_COLUMNS + 2;

const OUTERMOST: u64 = u64::MAX - (MIDDLE - 1);

// The bit of the first inner cell, and the word whose only bit is the middle's.
const INNER_BIT: u64 = SIDE + 1;

const MIDDLE_BIT: u64 = 1 << (2 * SIDE + 2);

// Writes those of a window's nine inner cells whose bit is set, with their statuses, to the n-th places on. Returns how
// many places are filled then.
// The two lists and `n` are no struct: lent, it would ask each contract to say that it still names the same lists.
fn put_nine(
    low: u64,
    fresh: u64,
    w: Corners,
    out: &mut [u64],
    statuses: &mut [u8],
    n: usize,
) -> usize
    requires { (low + (4 * W + 4) < 2 ^ 64) × (n + 9 ≤ length out.old) × (n + 9 ≤ length statuses.old) }
    ensures { (result ≤ n + 9)
        × Added (gathered (picked_at low fresh w.sw w.se w.nw w.ne) 9)
        out.old out.new statuses.old statuses.new n result }
{
    let mut m = n;
    for d in 0..9 {
        let i = d / 3;
        let j = d % 3;
        let c = INNER_BIT + (i * SIDE + j);
        if (fresh >> c) % 2 == 1 {
            out[m] = low + INNER + (i * COLUMN + j);
            statuses[m] = status_at(w, c);
            m += 1;
        }
    }
    m
}

// Writes what the i-th confirmed cell adds. Of the confirmed cells in its window, those before it have the bits below 12.
fn put_around(
    cells: &[u64],
    confirmed: &[u64],
    i: usize,
    out: &mut [u64],
    statuses: &mut [u8],
    n: usize,
) -> usize
    requires { (i < length confirmed.now) × (n + 9 ≤ length out.old) × (n + 9 ≤ length statuses.old) }
    ensures { (result ≤ n + 9) × ((C : List ℕ) → Given cells.now confirmed.now C
        → Added (numbered (fresh_at cells.now C confirmed.now i))
        out.old out.new statuses.old statuses.new n result) }
{
    let e = confirmed[i];
    if e < MIDDLE || OUTERMOST <= e {
        return n;
    }
    let low = e - MIDDLE;
    let before = window(cells, low);
    let toggled = window(confirmed, low);
    let was = corners_of(before);
    let now = corners_of(before ^ toggled);
    let met = beside(toggled % MIDDLE_BIT);
    put_nine(low, differing_but(was, now, met), now, out, statuses, n)
}

// The corner changes of a batch that toggles the cells `confirmed`, ascending: the cells whose
// status altered, each once, in the order met, with their new statuses. Returns how many there are. Nothing is
// written where there is no room for nine times as many as were confirmed.
// Without room the answer is 0: it may not change what it promises.
// Cells and statuses are two lists, and not one of pairs: C lends them so.
pub fn corner_changes(
    cells: &[u64],
    confirmed: &[u64],
    out: &mut [u64],
    statuses: &mut [u8],
) -> usize
    ensures { ((ch : Batch) (C : List ℕ) → confirmed.now ≡ keys ch → Toggled cells.now confirmed.now C
        → AscL 0 cells.now → AscL 0 confirmed.now → All Inner confirmed.now
        → 9 * length confirmed.now ≤ length out.old → 9 * length confirmed.now ≤ length statuses.old
        → Listed (numbered (corner_changes cells.now C ch)) out.old out.new statuses.old statuses.new result)
        × (length out.old < 9 * length confirmed.now
        → Unlisted out.old out.new statuses.old statuses.new result)
        × (length statuses.old < 9 * length confirmed.now
        → Unlisted out.old out.new statuses.old statuses.new result)
        × (result ≤ 9 * length confirmed.now) }
{
    let room = 9 * confirmed.len();
    if out.len() < room || statuses.len() < room {
        return 0;
    }
    let mut n = 0;
    // By places: what a cell adds hangs on those before it.
    for i in 0..confirmed.len() {
        n = put_around(cells, confirmed, i, out, statuses, n);
    }
    n
}
