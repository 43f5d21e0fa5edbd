// What is seen from a cell, and its neighbours, under C names. Each function is the call of that name, with its
// contract, and its answer as C has it.
#![tactic(auto)]

ghost use Rattle.held.specs.Holds.{tables_of};
ghost use Rattle.views.specs.Seen.{Beside, InSight};

use answers::judge::Count;
use held::map::Map;
use held::tables::View;
use limits::cell::Cell;
use views::neighbours::neighbours;
use views::visibility_from::visibility_from;

// The neighbours of a cell that can be reached.
#[unsafe(no_mangle)]
pub extern "C" fn runcedau_neighbours(map: Map, cells: &[u64], cell: Cell, out: &mut [u64]) -> Count
    ensures { Beside map cells.now out.old cell.x cell.y out.new result }
{
    Count::from(neighbours(map, cells, cell, out))
}

// The points in sight of a cell.
#[unsafe(no_mangle)]
pub extern "C" fn runcedau_visibility(
    map: Map,
    cells: &[u64],
    points: &[u64],
    statuses: &[u8],
    blockers: &[u64],
    pairs: &[u64],
    cell: Cell,
    out: &mut [u64],
) -> Count
    ensures { InSight map (tables_of cells.now points.now statuses.now blockers.now pairs.now)
        out.old cell.x cell.y out.new result }
{
    let tables = View {
        cells,
        points,
        statuses,
        blockers,
        pairs,
    };
    Count::from(visibility_from(map, tables, cell, out))
}
