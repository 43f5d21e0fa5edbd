// A map under C names: opening, batches, changes of the radius. Each function is the call of that name, with its contract,
// and its answer as C has it.
#![tactic(auto)]

ghost use Rattle.held.specs.Holds.{tables_of};
ghost use Rattle.visibility.specs.Change.{Changing, lent_of};
ghost use Rattle.visibility.specs.Open.{Opening};
ghost use Rattle.visibility.specs.Radius.{Rebuilding};

use batches::lists::Outputs;
use held::map::{Map, Outcome};
use held::tables::Tables;
use visibility::change::{Changed, change_cells};
use visibility::lent::Layer;
use visibility::open::open;
use visibility::radius::change_radius;

// Opens a map, empty, over the lent tables.
#[unsafe(no_mangle)]
pub extern "C" fn runcedau_open(
    size: f64,
    radius: f64,
    cells: &mut [u64],
    points: &mut [u64],
    statuses: &mut [u8],
    blockers: &mut [u64],
    pairs: &mut [u64],
) -> Outcome
    ensures { Opening size radius
        (tables_of cells.old points.old statuses.old blockers.old pairs.old)
        (tables_of cells.new points.new statuses.new blockers.new pairs.new) result }
{
    let mut tables = Tables {
        cells,
        points,
        statuses,
        blockers,
        pairs,
    };
    Outcome::from(open(size, radius, &mut tables))
}

// A batch on a map: three numbers an entry, x, y, and 1 or 0.
#[unsafe(no_mangle)]
pub extern "C" fn runcedau_change_cells(
    map: Map,
    cells: &mut [u64],
    points: &mut [u64],
    statuses: &mut [u8],
    blockers: &mut [u64],
    pairs: &mut [u64],
    batch: &[i64],
    confirmed: &mut [u64],
    full: &mut [u8],
    corners: &mut [u64],
    altered: &mut [u8],
) -> Changed
    ensures { Changing map batch.now
        (lent_of cells.old points.old statuses.old blockers.old pairs.old
        confirmed.old full.old corners.old altered.old)
        (lent_of cells.new points.new statuses.new blockers.new pairs.new
        confirmed.new full.new corners.new altered.new) result }
{
    let mut tables = Tables {
        cells,
        points,
        statuses,
        blockers,
        pairs,
    };
    let mut outputs = Outputs {
        confirmed,
        full,
        corners,
        altered,
    };
    Changed::from(change_cells(map, &mut tables, batch, &mut outputs))
}

// A change of the radius.
#[unsafe(no_mangle)]
pub extern "C" fn runcedau_change_radius(
    map: Map,
    cells: &[u64],
    points: &mut [u64],
    statuses: &mut [u8],
    blockers: &mut [u64],
    pairs: &mut [u64],
    radius: f64,
) -> Outcome
    ensures { Rebuilding map radius
        (tables_of cells.now points.old statuses.old blockers.old pairs.old)
        (tables_of cells.now points.new statuses.new blockers.new pairs.new) result }
{
    let mut layer = Layer {
        points,
        statuses,
        blockers,
        pairs,
    };
    Outcome::from(change_radius(map, cells, &mut layer, radius))
}
