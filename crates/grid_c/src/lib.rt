// A floor's batches and questions under C names, for the benchmark of cells alone. No part of the border: the map's calls answer
// the same questions.
#![tactic(auto)]

ghost use Rattle.std.specs.Prelude.{◌≡◌};
ghost use Rattle.grid.specs.Change.{lent_of};
ghost use Rattle.grid_c.specs.Called.{Called};
ghost use Rattle.grid_c.specs.Told.{Tells, question};
ghost use Rattle.limits.specs.Refusals.{code};

use batches::lists::Outputs;
use grid::change::change_cells;
use limits::floor::Floor;
use limits::refusal::Refusal;
use plane::point::Point;
use question::ask::judge;
use question::judge::bad_question;
use question::numbered::question_of;
use question::search::search;

// The refusal's number, 0 for none.
fn number_of(judged: Result<(), Refusal>) -> u64
    ensures { result ≡ code judged }
{
    judged.err().map_or(0, |refusal| refusal.number() as u64)
}

// The key of the cell found, 0 for none, or the refusal's number: no key is that small. What `ask` answers, with no `Option`
// of a cell on the way: a match on it would be a branch. `shape` as at the border: 0 a point, 1 a square, 2 a circle, 3 a sweep.
#[unsafe(no_mangle)]
pub extern "C" fn runcedau_floor_ask(
    shape: u8,
    size: f64,
    x0: f64,
    y0: f64,
    x1: f64,
    y1: f64,
    extent: f64,
    count: usize,
    cells: &[u64],
) -> u64
    ensures { Tells cells.now size count (question shape x0 y0 x1 y1 extent) result }
{
    let p = Point { x: x0, y: y0 };
    let q = Point { x: x1, y: y1 };
    let Some(question) = question_of(shape, p, q, extent) else {
        return number_of(judge(cells.len(), size, count, true));
    };
    let number = number_of(judge(cells.len(), size, count, bad_question(question)));
    if number != 0 {
        return number;
    }
    search(size, &cells[..count], question).key
}

// A batch on a floor. `counts` gets how many changes were confirmed, how many corners altered, and how many cells are
// occupied then; a refused call leaves it as it is.
#[unsafe(no_mangle)]
pub extern "C" fn runcedau_floor_change_cells(
    size: f64,
    count: usize,
    cells: &mut [u64],
    batch: &[i64],
    confirmed: &mut [u64],
    full: &mut [u8],
    corners: &mut [u64],
    altered: &mut [u8],
    counts: &mut [u64],
) -> u8
    ensures { Called (record { size = size; cells = count }) batch.now
        (lent_of cells.old confirmed.old full.old corners.old altered.old)
        (lent_of cells.new confirmed.new full.new corners.new altered.new)
        counts.old counts.new result }
{
    if counts.len() < 3 {
        return Refusal::ShortTable.number();
    }
    let floor = Floor { size, cells: count };
    let mut outputs = Outputs {
        confirmed,
        full,
        corners,
        altered,
    };
    match change_cells(floor, cells, batch, &mut outputs) {
        Ok(r) => {
            counts[0] = r.confirmed as u64;
            counts[1] = r.corners as u64;
            counts[2] = r.floor.cells as u64;
            0
        }
        Err(refusal) => refusal.number(),
    }
}
