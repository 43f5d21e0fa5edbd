// The candidates: the points that there were, and those that a corner change may bring. They are gathered first, so that what is
// kept of each has one place while the marks are made.
ghost use Rattle.std.specs.Prelude.{◌≡◌, ◌+◌, ◌≤◌, length, take};
ghost use Rattle.corner.specs.Weights.{dir};
ghost use Rattle.model.specs.Cell.{move};
ghost use Rattle.model.specs.ClosedForm.{stand};
ghost use Rattle.model.specs.Corner.{Bits, number};
ghost use Rattle.model.specs.Layer.{marks_of};
ghost use Rattle.model.specs.Limits.{max_shift};
ghost use Rattle.table.specs.Tables.{Table};
ghost use Rattle.marks.specs.Marked.{Bordered, Gathers};

use crate::lists::Statuses;
use corner::bits::{Corner, CornerStatus};
use sizes::{COLUMN, POINTS};
use std::num::{wrapping_add_u64, wrapping_sub_u64};
use table::change::insert;

// How many candidates there may be: as many as there were points, and as many as there may be in the end. A cell's corners are
// all put in before it is seen that there are too many.
pub(crate) const CANDIDATES: usize = 2 * POINTS;

pub(crate) const ROOM: usize = CANDIDATES + 4;

// The corners in bit order.
pub(crate) const ORDER: [Corner; 4] = [
    Corner::Southwest,
    Corner::Southeast,
    Corner::Northwest,
    Corner::Northeast,
];

// The point that this corner of the cell k gives.
pub(crate) fn shifted(k: u64, shift: u64, corner: Corner) -> u64
    requires { shift ≤ max_shift }
    ensures { Bordered k → result ≡ move shift (dir corner) k }
{
    let columns = shift * COLUMN;
    match corner {
        Corner::Southwest => wrapping_sub_u64(k, columns + shift),
        Corner::Southeast => wrapping_sub_u64(wrapping_add_u64(k, columns), shift),
        Corner::Northwest => wrapping_sub_u64(wrapping_add_u64(k, shift), columns),
        Corner::Northeast => wrapping_add_u64(k, columns + shift),
    }
}

// Puts in the points that the corners of the cell k give.
fn put_corners(candidates: &mut [u64], n: usize, k: u64, status: u8, shift: u64) -> usize
    requires { shift ≤ max_shift }
    ensures { (b : Bits) → status ≡ number b → Bordered k → Table candidates.old n → n + 4 ≤ length candidates.old
        → Table candidates.new result × (take result candidates.new ≡ stand (marks_of shift k b) (take n candidates.old)) × (result ≤ n + 4) }
{
    let here = CornerStatus { bits: status };
    let mut used = n;
    for corner in ORDER {
        if here.get(corner) {
            used = insert(candidates, used, shifted(k, shift, corner));
        }
    }
    used
}

// Puts in the points that the corners give, until there are more than CANDIDATES.
pub(crate) fn gather(candidates: &mut [u64], n: usize, corners: Statuses, shift: u64) -> usize
    requires { shift ≤ max_shift }
    ensures { Gathers shift corners.entry.cells.now corners.entry.statuses.now candidates.old n candidates.new result }
{
    let mut used = n;
    for (k, status) in corners.cells.iter().zip(corners.statuses) {
        if CANDIDATES < used {
            return used;
        }
        used = put_corners(candidates, used, *k, *status, shift);
    }
    used
}
