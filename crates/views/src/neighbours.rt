// The cells beside a cell that can be reached from it (`neighbors`).
ghost use Rattle.std.specs.Prelude.{◌≡◌, ◌≤◌, length};
ghost use Rattle.answers.specs.Asking.{Front};
ghost use Rattle.answers.specs.Told.{counted};
ghost use Rattle.model.specs.Answers.{free};
ghost use Rattle.model.specs.Good.{Inside};
ghost use Rattle.model.specs.Limits.{max_coordinate};
ghost use Rattle.model.specs.Map.{tests};
ghost use Rattle.model.specs.Maps.{AscL};
ghost use Rattle.table.specs.Tables.{All};
ghost use Rattle.views.specs.Seen.{Beside};
ghost use Rattle.views.specs.Kept.{Surrounded, steps};

use answers::judge::{off_edge, refuse};
use answers::keep::{Test, keep};
use held::map::Map;
use limits::cell::Cell;
use limits::lent::is_short;
use limits::refusal::Refusal;
use looks::tests::Ground;
use sizes::{CELLS, COLUMN, POINTS};

// Whether the sweep from the cell k is free.
#[derive(Clone, Copy)]
struct Reach<'a> {
    ground: Ground<'a>,
    k: u64,
}

impl Test for Reach<'_> {
    ghost says = { λ s i n x r. AscL 0 s.ground.cells.now → All (Inside max_coordinate) s.ground.cells.now
        → r ≡ free ((tests s.ground.size s.ground.radius).sweep s.ground.cells.now s.k x).cell };

    fn keeps(&self, _i: usize, _n: usize, x: u64) -> bool {
        self.ground.sweep_between(self.k, x) == 0
    }
}

// Those of the eight cells around k to whose centre the sweep is free, in the order of `secondary_cardinal_directions`.
fn write_steps(ground: Ground, k: u64, out: &mut [u64]) -> usize
    requires { Surrounded k × (8 ≤ length out.old) }
    ensures { AscL 0 ground.entry.cells.now → All (Inside max_coordinate) ground.entry.cells.now
        → Front (steps ground.entry.size ground.entry.radius ground.entry.cells.now k) result out.old out.new }
{
    let west = k - COLUMN;
    let east = k + COLUMN;
    let around = [
        west - 1,
        west,
        west + 1,
        k - 1,
        k + 1,
        east - 1,
        east,
        east + 1,
    ];
    keep(&around, out, Reach { ground, k })
}

// None, if the square of width 2r at this centre is taken.
pub fn neighbours(map: Map, cells: &[u64], cell: Cell, out: &mut [u64]) -> Result<usize, Refusal>
    ensures { Beside map cells.now out.old cell.x cell.y out.new (counted result) }
{
    let short = is_short(&[(cells.len(), CELLS), (out.len(), POINTS)]);
    refuse(short, map, off_edge(cell))?;
    let n = map.cells;
    let ground = Ground {
        size: map.size,
        radius: map.radius,
        cells: &cells[..n],
    };
    let k = cell.key();
    if ground.square_at(k) != 0 {
        return Ok(0);
    }
    Ok(write_steps(ground, k, out))
}
