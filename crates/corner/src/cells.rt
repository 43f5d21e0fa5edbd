// The cells that have a corner.
ghost use Rattle.std.specs.Prelude.{◌<◌, ◌≤◌, length};
ghost use Rattle.table.specs.Listed.{Unlisted};
ghost use Rattle.corner.specs.Changes.{Cornered};

use crate::status::status_of;

// The cells that have a corner, ascending, with their statuses. Returns how many there are. Nothing is written where
// there is no room for as many as there are cells.
// Without room the answer is 0: it may not change what it promises. Cells and statuses are two lists: C lends them so.
pub fn corner_cells(cells: &[u64], out: &mut [u64], statuses: &mut [u8]) -> usize
    ensures { Cornered cells.now out.old out.new statuses.old statuses.new result
        × (length out.old < length cells.now
        → Unlisted out.old out.new statuses.old statuses.new result)
        × (length statuses.old < length cells.now
        → Unlisted out.old out.new statuses.old statuses.new result)
        × (result ≤ length cells.now) }
{
    if out.len() < cells.len() || statuses.len() < cells.len() {
        return 0;
    }
    let mut n = 0;
    for &k in cells {
        let s = status_of(cells, k);
        if s != 0 {
            out[n] = k;
            statuses[n] = s;
            n += 1;
        }
    }
    n
}
