// A batch on a floor, whole: judged first, then committed. A refused call leaves every table as it was.
ghost use Rattle.std.specs.Prelude.{List, ◌≡◌, ℕ, ◌≤◌, ltb, length, take};
ghost use Rattle.model.specs.Limits.{max_cells};
ghost use Rattle.batches.specs.Lists.{Same};
ghost use Rattle.limits.specs.Batches.{entries};
ghost use Rattle.limits.specs.Refusals.{code};
ghost use Rattle.grid.specs.Change.{Applying, Changing, Done, lists_of, refuse_change, short_for};

use batches::batch::{commit, confirm, count_after};
use batches::lists::{Changes, Outputs};
use corner::changes::corner_changes;
use limits::dues::Due;
use limits::floor::Floor;
use limits::judge::{bad_size, batch_due};
use limits::refusal::Refusal;
use sizes::{BATCH, CELLS, CORNERS};

// How many changes were confirmed, how many corners changed, and the floor afterwards.
#[derive(Clone, Copy)]
pub struct Changed {
    pub confirmed: usize,
    pub corners: usize,
    pub floor: Floor,
}

// 9: whether a lent table is short of its need.
#[tactic(auto, unfolding(crate::specs::Change::short_of))]
fn is_short(cells: &[u64], outputs: &Outputs) -> bool
    ensures { result ≡ short_for (lists_of cells.now outputs.now) }
{
    limits::lent::is_short(&[
        (cells.len(), CELLS),
        (outputs.confirmed.len(), BATCH),
        (outputs.full.len(), BATCH),
        (outputs.corners.len(), CORNERS),
        (outputs.altered.len(), CORNERS),
    ])
}

// The refusals that the input alone decides: 9; 1; 3, 4 and 5; 6, of the floor handed in.
fn judge(short: bool, floor: Floor, batch: &[i64]) -> Result<(), Refusal>
    ensures { code result ≡ refuse_change short floor.size batch.now (ltb max_cells floor.cells) }
{
    let crowded = Due::none().and(Refusal::ManyCells, CELLS < floor.cells);
    batch_due(crowded, batch)
        .and(Refusal::CellSize, bad_size(floor.size))
        .and(Refusal::ShortTable, short)
        .first()
}

// The first n of the confirmed changes.
fn first_changes<'a>(outputs: &'a Outputs, n: usize) -> Changes<'a>
    requires { (n ≤ length outputs.now.confirmed.now) × (n ≤ length outputs.now.full.now) }
    ensures cells { result.cells.now ≡ take n outputs.now.confirmed.now }
    ensures full { result.full.now ≡ take n outputs.now.full.now }
{
    Changes {
        cells: &outputs.confirmed[..n],
        full: &outputs.full[..n],
    }
}

// The batch, once nothing refuses it.
fn apply(floor: Floor, cells: &mut [u64], batch: &[i64], outputs: &mut Outputs) -> Changed
    requires { (floor.cells ≤ max_cells) × (max_cells ≤ length cells.old)
        × (length (entries batch.now) ≤ length outputs.old.confirmed.now)
        × (length (entries batch.now) ≤ length outputs.old.full.now) }
    ensures same { Same outputs.old outputs.new }
    ensures done { (C : List ℕ)
        → Applying cells.old floor.cells C (entries batch.now) (length outputs.old.corners.now) (length outputs.old.altered.now)
        → Done floor C (entries batch.now) (lists_of cells.old outputs.old) (lists_of cells.new outputs.new) result }
{
    let n = floor.cells;
    let confirmed = confirm(&cells[..n], batch, outputs.confirmed, outputs.full);
    // The check has a rule for this part of an output beside two other outputs only where it is lent to be changed.
    let list = &mut outputs.confirmed[..confirmed];
    let corners = corner_changes(&cells[..n], list, outputs.corners, outputs.altered);
    let after = commit(&mut cells[..CELLS], n, first_changes(outputs, confirmed));
    Changed {
        confirmed,
        corners,
        floor: Floor {
            size: floor.size,
            cells: after,
        },
    }
}

// Changes the floor's cells as the batch says. `cells` holds the floor's cells; the outputs get the confirmed changes, and
// the corner changes with their statuses.
pub fn change_cells(
    floor: Floor,
    cells: &mut [u64],
    batch: &[i64],
    outputs: &mut Outputs,
) -> Result<Changed, Refusal>
    ensures same { Same outputs.old outputs.new }
    ensures changing { Changing floor batch.now (lists_of cells.old outputs.old) (lists_of cells.new outputs.new) result }
{
    let n = floor.cells;
    judge(is_short(cells, outputs), floor, batch)?;
    if CELLS < count_after(&cells[..n], batch) {
        return Err(Refusal::ManyCells);
    }
    Ok(apply(floor, cells, batch, outputs))
}
