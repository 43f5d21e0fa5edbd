// The question of four shapes under a C name.
#![tactic(auto)]

ghost use Rattle.std.specs.Prelude.{◌≡◌};
ghost use Rattle.ask_c.specs.Told.{Asked};

use answers::ask::ask_numbered;
use held::map::Map;
use limits::cell::Cell;
use limits::refusal::Refusal;
use plane::point::Point;
use question::numbered::question_of;

// As C has it: the refusal's number, whether a cell was found, and the cell; all else is zero where there is none.
#[repr(C)]
#[derive(Clone, Copy)]
pub struct Found {
    pub refusal: u8,
    pub some: bool,
    pub cell: Cell,
}

impl From<Result<Option<Cell>, Refusal>> for Found {
    ghost use Rattle.ask_c.specs.Told.{found_of};

    ghost from_gives = { λ a r. r ≡ found_of a };

    fn from(answer: Result<Option<Cell>, Refusal>) -> Found {
        let (refusal, found) = match answer {
            Ok(found) => (0, found),
            Err(refusal) => (refusal.number(), None),
        };
        Found {
            refusal,
            some: found.is_some(),
            cell: found.unwrap_or(Cell { x: 0, y: 0 }),
        }
    }
}

// The first occupied cell that qualifies. `shape` is 0 for a point, 1 for a square, 2 for a circle, 3 for a sweep, and any other
// number is refused with 8; `q` counts for a sweep only, `extent` not for a point.
#[unsafe(no_mangle)]
pub extern "C" fn runcedau_ask(
    map: Map,
    cells: &[u64],
    shape: u8,
    p: Point,
    q: Point,
    extent: f64,
) -> Found
    ensures { Asked map cells.now shape p q extent result }
{
    let question = question_of(shape, p, q, extent);
    Found::from(ask_numbered(map, cells, question))
}
