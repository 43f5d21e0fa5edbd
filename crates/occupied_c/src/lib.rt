// The cells and corners of a map under C names. Each function is the call of that name, with its contract, and
// its answer as C has it.
#![tactic(auto)]

ghost use Rattle.answers.specs.CellLists.{CornerCells, IsOccupied, OccupiedCells};

use answers::cells::{Told, corner_cells, is_occupied, occupied_cells};
use answers::judge::Count;
use held::map::Map;
use limits::cell::Cell;

// Whether a cell is occupied.
#[unsafe(no_mangle)]
pub extern "C" fn runcedau_is_occupied(map: Map, cells: &[u64], cell: Cell) -> Told
    ensures { IsOccupied map cells.now cell.x cell.y result }
{
    Told::from(is_occupied(map, cells, cell))
}

// The occupied cells.
#[unsafe(no_mangle)]
pub extern "C" fn runcedau_occupied_cells(map: Map, cells: &[u64], out: &mut [u64]) -> Count
    ensures { OccupiedCells map cells.now out.old out.new result }
{
    Count::from(occupied_cells(map, cells, out))
}

// The cells with a corner, and their statuses.
#[unsafe(no_mangle)]
pub extern "C" fn runcedau_corner_cells(
    map: Map,
    cells: &[u64],
    out: &mut [u64],
    statuses: &mut [u8],
) -> Count
    ensures { CornerCells map cells.now out.old statuses.old out.new statuses.new result }
{
    Count::from(corner_cells(map, cells, out, statuses))
}
