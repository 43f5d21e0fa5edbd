// The refusal that is due, or what the search finds.
ghost use Rattle.answers.specs.Asks.{Asks, AsksNumbered};

use crate::judge::refuse;
use held::map::Map;
use limits::cell::Cell;
use limits::dues::Due;
use limits::lent::is_short;
use limits::refusal::Refusal;
use question::ask::place_of;
use question::judge::bad_numbered;
use question::search::{Question, search};
use sizes::CELLS;

// The first occupied cell of the map, by x, then y, that qualifies, of a question by its shape's number: one that names no shape
// is a query number outside its bounds. Who asks with a number and who asks with a question come this one way, so that `refuse` is
// called in one place: the compiler then makes no call of it.
pub fn ask_numbered(
    map: Map,
    cells: &[u64],
    question: Option<Question>,
) -> Result<Option<Cell>, Refusal>
    ensures { AsksNumbered map cells.now question result }
{
    let asked = Due::none().and(Refusal::BadQuestion, bad_numbered(question));
    refuse(is_short(&[(cells.len(), CELLS)]), map, asked)?;
    let Some(question) = question else {
        unreachable!()
    };
    let n = map.cells;
    let found = search(map.size, &cells[..n], question);
    Ok(place_of(found))
}

// The same, of a question as it is.
pub fn ask(map: Map, cells: &[u64], question: Question) -> Result<Option<Cell>, Refusal>
    ensures { Asks map cells.now question result }
{
    ask_numbered(map, cells, Some(question))
}
