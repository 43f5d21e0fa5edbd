// The question as it is put to a floor.
ghost use Rattle.std.specs.Prelude.{◌≡◌};
ghost use Rattle.limits.specs.Refusals.{code};
ghost use Rattle.question.specs.Answer.{cell_at, placed};
ghost use Rattle.question.specs.Ask.{Asked, refuse_floor};
ghost use Rattle.question.specs.Walk.{found};

use crate::judge::bad_question;
use crate::search::{Found, Question, search};
use limits::cell::Cell;
use limits::dues::Due;
use limits::floor::Floor;
use limits::judge::bad_size;
use limits::refusal::Refusal;
use sizes::CELLS;

// The cell that was found, or none.
pub fn place_of(f: Found) -> Option<Cell>
    ensures { placed result ≡ cell_at (found f).cell }
{
    f.some.then(|| Cell::of_key(f.key))
}

// The first refusal that is due: 9, by the lent places; 1; 6, of the floor handed in; 8, where `bad` says that a query number is bad.
pub fn judge(room: usize, size: f64, cells: usize, bad: bool) -> Result<(), Refusal>
    ensures { code result ≡ refuse_floor room size cells bad }
{
    Due::none()
        .and(Refusal::BadQuestion, bad)
        .and(Refusal::ManyCells, CELLS < cells)
        .and(Refusal::CellSize, bad_size(size))
        .and(Refusal::ShortTable, room < CELLS)
        .first()
}

// The first occupied cell of the floor, by x, then y, that qualifies.
pub fn ask(floor: Floor, cells: &[u64], question: Question) -> Result<Option<Cell>, Refusal>
    ensures { Asked floor cells.now question result }
{
    let n = floor.cells;
    judge(cells.len(), floor.size, n, bad_question(question))?;
    let found = search(floor.size, &cells[..n], question);
    Ok(place_of(found))
}
