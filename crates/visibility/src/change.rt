// A batch on a map: judged first, then committed. A refused call leaves every table as it was.
ghost use Rattle.std.specs.Prelude.{◌≡◌, false, Ok, [], ◌∷◌, ◌*◌, ◌≤◌, ltb, length};
ghost use Rattle.batches.specs.Lists as listed;
ghost use Rattle.held.specs.Lent.{Same};
ghost use Rattle.limits.specs.Batches.{entries};
ghost use Rattle.limits.specs.Refusals.{code};
ghost use Rattle.model.specs.Limits.{max_batch, max_cells, max_points, need_confirmed, need_corners};
ghost use Rattle.model.specs.Refusal.{short, verdict};
ghost use Rattle.table.specs.Copied.{Copied};
ghost use Rattle.visibility.specs.Change.{Changing, lent_needs, refuse_batch};
ghost use Rattle.visibility.specs.Lent.{lent_lists};
ghost use Rattle.visibility.specs.Told.{changed_told};
ghost use Rattle.visibility.specs.Update.{CommitsCells, Finishes, Updated};

use crate::layer::{Basis, redraw};
use crate::plan::{list_changes, mark};
use batches::batch::{commit, count_after};
use batches::lists::{Changes, Outputs};
use held::map::Map;
use held::tables::Tables;
use limits::dues::Due;
use limits::judge::{bad_size, batch_due};
use limits::lent::is_short;
use limits::radius::{bad_radius, reach_of, shift_of};
use limits::refusal::Refusal;
use looks::tests::Ground;
use marks::lists::{Moods, Statuses};
use sizes::{BATCH, CELLS, CORNERS, POINTS};
use table::copy::copy;

// A batch of at most 16 entries counts as small: its numbers, and the corner changes that it can make.
const FEW_NUMBERS: usize = 3 * 16;

const FEW_CORNERS: usize = 9 * 16;

// How many changes were confirmed, how many corners altered, and the map afterwards.
#[derive(Clone, Copy)]
pub struct Change {
    pub confirmed: usize,
    pub corners: usize,
    pub map: Map,
}

// As C has it: 0, whether something was confirmed, how many changes were confirmed, how many corners altered, and the map afterwards;
// or the refusal's number, and all else zero.
#[repr(C)]
#[derive(Clone, Copy)]
pub struct Changed {
    pub refusal: u8,
    pub yes: bool,
    pub confirmed: usize,
    pub corners: usize,
    pub map: Map,
}

impl From<Result<Change, Refusal>> for Changed {
    ghost from_gives = { λ r o. o ≡ changed_told r };

    fn from(answer: Result<Change, Refusal>) -> Changed {
        match answer {
            Ok(change) => Changed {
                refusal: 0,
                yes: 0 < change.confirmed,
                confirmed: change.confirmed,
                corners: change.corners,
                map: change.map,
            },
            Err(refusal) => Changed {
                refusal: refusal.number(),
                yes: false,
                confirmed: 0,
                corners: 0,
                map: Map::none(),
            },
        }
    }
}

// The refusals that the input alone decides: 9; 1; 2; 3, 4 and 5; 6, of the map handed in.
fn judge(short: bool, map: Map, batch: &[i64]) -> Result<(), Refusal>
    ensures { code result ≡ refuse_batch short map batch.now (ltb max_cells map.cells) false }
{
    let crowded = Due::none().and(Refusal::ManyCells, CELLS < map.cells);
    batch_due(crowded, batch)
        .and(Refusal::Radius, bad_radius(map.size, map.radius))
        .and(Refusal::CellSize, bad_size(map.size))
        .and(Refusal::ShortTable, short)
        .first()
}

// Past these: 6, of the cells that there would be, and 7, of the points of the map handed in.
fn judge_room(cells: usize, points: usize) -> Result<(), Refusal>
    ensures { code result ≡ verdict ((6, ltb max_cells cells) ∷ (7, ltb max_points points) ∷ []) }
{
    Due::none()
        .and(Refusal::ManyPoints, POINTS < points)
        .and(Refusal::ManyCells, CELLS < cells)
        .first()
}

// What a batch changes, as lists: the confirmed changes, and the corners with their statuses.
#[derive(Clone, Copy)]
struct Found<'a> {
    changes: Changes<'a>,
    corners: Statuses<'a>,
}

// Lists it where the caller gets it.
fn list(found: Found, outputs: &mut Outputs)
    ensures listed { Copied found.entry.changes.cells.now outputs.old.confirmed.now outputs.new.confirmed.now
        × Copied found.entry.changes.full.now outputs.old.full.now outputs.new.full.now
        × Copied found.entry.corners.cells.now outputs.old.corners.now outputs.new.corners.now
        × Copied found.entry.corners.statuses.now outputs.old.altered.now outputs.new.altered.now }
    ensures same { listed.Same outputs.old outputs.new }
{
    copy(found.changes.cells, outputs.confirmed);
    copy(found.changes.full, outputs.full);
    copy(found.corners.cells, outputs.corners);
    copy(found.corners.statuses, outputs.altered);
}

// Changes the cells of a table, of which `used` are used, and returns how many are used then.
fn commit_cells(cells: &mut [u64], used: usize, changes: Changes) -> usize
    requires { max_cells ≤ length cells.old }
    ensures { CommitsCells changes.entry.cells.now changes.entry.full.now cells.old used cells.new result }
{
    commit(&mut cells[..CELLS], used, changes).min(CELLS)
}

// Commits a batch: the cells, the layer over them, which has these points then, and the outputs. Inlined, so that a caller which does not
// look at its outputs, as the reading of a map file, does not pay for clearing them.
#[inline(always)]
fn finish<'a>(
    map: Map,
    tables: &mut Tables,
    found: Found<'a>,
    points: Moods<'a>,
    reach: u64,
    outputs: &mut Outputs,
) -> Change
    requires { (max_cells ≤ length tables.old.cells.now) × (length points.points.now ≤ max_points)
        × (length points.words.now ≤ max_points) × (map.points ≤ length tables.old.blockers.now) }
    ensures finished { Finishes map (lent_lists tables.old outputs.old) (lent_lists tables.new outputs.new)
        found.entry.changes.cells.now found.entry.changes.full.now found.entry.corners.cells.now found.entry.corners.statuses.now
        points.entry.points.now points.entry.words.now reach (changed_told (Ok result)) }
    ensures same { Same tables.old tables.new }
    ensures listed { listed.Same outputs.old outputs.new }
{
    let changes = found.changes;
    // Each table is taken whole: of one that is shortened in its struct, no proof knows what it holds afterwards.
    let table = &mut *tables.cells;
    let keys = &mut *tables.points;
    let statuses = &mut *tables.statuses;
    let blockers = &mut *tables.blockers;
    let pairs = &mut *tables.pairs;
    let used = commit_cells(table, map.cells, changes);
    let cells = &*table;
    let basis = Basis {
        ground: Ground {
            size: map.size,
            radius: map.radius,
            cells: &cells[..used],
        },
        reach,
        changes,
        points,
    };
    redraw(basis, map.points, keys, statuses, blockers, pairs);
    list(found, outputs);
    Change {
        confirmed: found.changes.cells.len(),
        corners: found.corners.cells.len(),
        map: Map {
            cells: used,
            points: points.points.len(),
            ..map
        },
    }
}

// The batch, once nothing but the number of points may refuse it, with room for N corner changes. Arrays are cleared first, so a small
// batch gets small ones.
fn update<const N: usize>(
    map: Map,
    tables: &mut Tables,
    batch: &[i64],
    outputs: &mut Outputs,
) -> Result<Change, Refusal>
    requires { (map.cells ≤ max_cells) × (max_cells ≤ length tables.old.cells.now) × (map.points ≤ max_points)
        × (max_points ≤ length tables.old.points.now) × (max_points ≤ length tables.old.statuses.now) × (max_points ≤ length tables.old.blockers.now)
        × (length (entries batch.now) ≤ max_batch) × (9 * length (entries batch.now) ≤ N)
        × (need_confirmed ≤ length outputs.old.confirmed.now) × (need_confirmed ≤ length outputs.old.full.now)
        × (need_corners ≤ length outputs.old.corners.now) × (need_corners ≤ length outputs.old.altered.now) × (N ≤ need_corners) }
    ensures updated { Updated map (entries batch.now) (lent_lists tables.old outputs.old) (lent_lists tables.new outputs.new) (changed_told result) }
    ensures same { Same tables.old tables.new }
    ensures listed { listed.Same outputs.old outputs.new }
{
    let mut confirmed = [0u64; BATCH];
    let mut full = [0u8; BATCH];
    let mut corners = [0u64; N];
    let mut altered = [0u8; N];
    let mut present = [0u64; POINTS];
    let mut moods = [0u64; POINTS];
    let view = tables.view();
    let counts = list_changes(
        &view.cells[..map.cells],
        batch,
        &mut confirmed[..],
        &mut full[..],
        &mut corners[..],
        &mut altered[..],
    );
    let found = Found {
        changes: Changes {
            cells: &confirmed[..counts.confirmed],
            full: &full[..counts.confirmed],
        },
        corners: Statuses {
            cells: &corners[..counts.corners],
            statuses: &altered[..counts.corners],
        },
    };
    let held = Statuses {
        cells: &view.points[..map.points],
        statuses: &view.statuses[..map.points],
    };
    let shift = shift_of(map.size, map.radius);
    let n = mark(shift, held, found.corners, &mut present, &mut moods).ok_or(Refusal::ManyPoints)?;
    let points = Moods {
        points: &present[..n],
        words: &moods[..n],
    };
    Ok(finish(map, tables, found, points, reach_of(shift), outputs))
}

// 9: whether one of the tables or of the outputs is short of its need.
fn short_of(tables: &Tables, outputs: &Outputs) -> bool
    ensures { result ≡ short (lent_needs (lent_lists tables.now outputs.now)) }
{
    tables.is_short()
        || is_short(&[
            (outputs.confirmed.len(), BATCH),
            (outputs.full.len(), BATCH),
            (outputs.corners.len(), CORNERS),
            (outputs.altered.len(), CORNERS),
        ])
}

// Changes the map's cells as the batch says, and the points, pairs and blockers over them. `outputs` gets the confirmed changes, and the
// corner changes with their statuses.
pub fn change_cells(
    map: Map,
    tables: &mut Tables,
    batch: &[i64],
    outputs: &mut Outputs,
) -> Result<Change, Refusal>
    ensures said { Changing map batch.now (lent_lists tables.old outputs.old) (lent_lists tables.new outputs.new) (changed_told result) }
    ensures same { Same tables.old tables.new }
    ensures listed { listed.Same outputs.old outputs.new }
{
    judge(short_of(tables, outputs), map, batch)?;
    let cells = tables.view().cells;
    judge_room(count_after(&cells[..map.cells], batch), map.points)?;
    if batch.len() <= FEW_NUMBERS {
        return update::<FEW_CORNERS>(map, tables, batch, outputs);
    }
    update::<CORNERS>(map, tables, batch, outputs)
}
