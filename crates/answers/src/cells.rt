// The occupied cells of a map, and those with a corner.
ghost use Rattle.answers.specs.CellLists.{CornerCells, IsOccupied, OccupiedCells};
ghost use Rattle.answers.specs.Told.{counted, said};

use crate::judge::refuse;
use crate::list::list;
use held::map::Map;
use limits::cell::Cell;
use limits::dues::Due;
use limits::lent::is_short;
use limits::refusal::Refusal;
use sizes::CELLS;

// As C has it: 0 and the answer; or the refusal's number, and no.
#[repr(C)]
#[derive(Clone, Copy)]
pub struct Told {
    pub refusal: u8,
    pub yes: bool,
}

impl From<Result<bool, Refusal>> for Told {
    ghost use Rattle.std.specs.Prelude.{◌≡◌};

    ghost from_gives = { λ r o. o ≡ said r };

    fn from(answer: Result<bool, Refusal>) -> Told {
        match answer {
            Ok(yes) => Told { refusal: 0, yes },
            Err(refusal) => Told {
                refusal: refusal.number(),
                yes: false,
            },
        }
    }
}

// `is_occupied`, for any pair of integers
pub fn is_occupied(map: Map, cells: &[u64], cell: Cell) -> Result<bool, Refusal>
    ensures { IsOccupied map cells.now cell.x cell.y (said result) }
{
    refuse(is_short(&[(cells.len(), CELLS)]), map, Due::none())?;
    let n = map.cells;
    Ok(limits::cell::is_occupied(&cells[..n], cell))
}

// `occupied_cells`
pub fn occupied_cells(map: Map, cells: &[u64], out: &mut [u64]) -> Result<usize, Refusal>
    ensures { OccupiedCells map cells.now out.old out.new (counted result) }
{
    let short = is_short(&[(cells.len(), CELLS), (out.len(), CELLS)]);
    refuse(short, map, Due::none())?;
    let n = map.cells;
    list(&cells[..n], out);
    Ok(n)
}

// `corners`, with their statuses
pub fn corner_cells(
    map: Map,
    cells: &[u64],
    out: &mut [u64],
    statuses: &mut [u8],
) -> Result<usize, Refusal>
    ensures { CornerCells map cells.now out.old statuses.old out.new statuses.new (counted result) }
{
    let short = is_short(&[
        (cells.len(), CELLS),
        (out.len(), CELLS),
        (statuses.len(), CELLS),
    ]);
    refuse(short, map, Due::none())?;
    let n = map.cells;
    let found = corner::cells::corner_cells(&cells[..n], out, statuses);
    Ok(found)
}
