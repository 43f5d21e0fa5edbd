// What a batch on a map changes, worked out before any table is written.
ghost use Rattle.std.specs.Prelude.{◌≡◌, IfSome, ◌*◌, ◌≤◌, length};
ghost use Rattle.limits.specs.Batches.{entries};
ghost use Rattle.marks.specs.Marked.{Marks};
ghost use Rattle.model.specs.Limits.{max_batch, max_points};
ghost use Rattle.visibility.specs.Update.{Lists};

use batches::batch::confirm;
use corner::changes::corner_changes;
use marks::lists::Statuses;
use marks::points::mark_points;
use sizes::POINTS;

// How many changes were confirmed, and how many corners changed.
#[derive(Clone, Copy)]
pub(crate) struct Counts {
    pub(crate) confirmed: usize,
    pub(crate) corners: usize,
}

// Lists the confirmed changes and the corner changes of a batch. The four slices are no struct: of one that is shortened in its struct,
// no proof knows what it holds afterwards.
pub(crate) fn list_changes(
    cells: &[u64],
    batch: &[i64],
    confirmed: &mut [u64],
    full: &mut [u8],
    corners: &mut [u64],
    altered: &mut [u8],
) -> Counts
    requires { (length (entries batch.now) ≤ max_batch) × (length confirmed.old ≡ max_batch) × (length full.old ≡ max_batch)
        × (9 * length (entries batch.now) ≤ length corners.old) × (length altered.old ≡ length corners.old) }
    ensures { (result.confirmed ≤ max_batch) × (result.corners ≤ length corners.old)
        × Lists (entries batch.now) cells.now
        confirmed.old confirmed.new full.old full.new result.confirmed
        corners.old corners.new altered.old altered.new result.corners }
{
    let changes = confirm(cells, batch, confirmed, full);
    let found = corner_changes(cells, &confirmed[..changes], corners, altered);
    Counts {
        confirmed: changes,
        corners: found,
    }
}

// The points that there are after corners changed, each with its mood: how many, or none where they are too many. Tables that hold no
// map might give any number, so it is looked at again.
pub(crate) fn mark(
    shift: u64,
    points: Statuses,
    corners: Statuses,
    present: &mut [u64; POINTS],
    moods: &mut [u64; POINTS],
) -> Option<usize>
    ensures marked { Marks shift points.entry.cells.now points.entry.statuses.now corners.entry.cells.now corners.entry.statuses.now
        present.old present.new moods.old moods.new result }
    ensures few { IfSome result (λ n. n ≤ max_points) }
{
    let n = mark_points(shift, points, corners, &mut present[..], &mut moods[..])?;
    if POINTS < n { None } else { Some(n) }
}
