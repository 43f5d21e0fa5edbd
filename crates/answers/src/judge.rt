// The refusals of a call that leaves the map as it is.
ghost use Rattle.std.specs.Prelude.{◌≡◌, ◌||◌, [], ◌∷◌, ◌+◌};
ghost use Rattle.model.specs.Limits.{beyond, max_coordinate};
ghost use Rattle.model.specs.Refusal.{off_map, order};
ghost use Rattle.limits.specs.Refusals.{code};
ghost use Rattle.limits.specs.Words.{first_on, word_on};
ghost use Rattle.answers.specs.Asking.{on_map};

use held::map::Map;
use limits::cell::Cell;
use limits::dues::Due;
use limits::judge::bad_size;
use limits::radius::bad_radius;
use limits::refusal::Refusal;
use sizes::{CELLS, LEAST_ASKED, MOST_ASKED, POINTS};

// As C has it: 0 and how many there are; or the refusal's number, and 0.
#[repr(C)]
#[derive(Clone, Copy)]
pub struct Count {
    pub refusal: u8,
    pub count: usize,
}

impl From<Result<usize, Refusal>> for Count {
    ghost use Rattle.answers.specs.Told.{counted};

    ghost from_gives = { λ r o. o ≡ counted r };

    fn from(answer: Result<usize, Refusal>) -> Count {
        match answer {
            Ok(count) => Count { refusal: 0, count },
            Err(refusal) => Count {
                refusal: refusal.number(),
                count: 0,
            },
        }
    }
}

// Whether a coordinate is further outside than one in a question may be.
fn beyond_edge(z: i64) -> bool
    ensures { result ≡ off_map (max_coordinate + beyond) z }
{
    z < LEAST_ASKED || MOST_ASKED < z
}

// 5, where a cell named in a question is outside.
#[tactic(auto, unfolding(limits::specs::Words::word_on))]
pub fn off_edge(cell: Cell) -> Due
    ensures { result.word ≡ word_on 0 ((5, off_map (max_coordinate + beyond) cell.x || off_map (max_coordinate + beyond) cell.y) ∷ []) }
{
    Due::none().and(Refusal::OffMap, beyond_edge(cell.x) || beyond_edge(cell.y))
}

// The first refusal that is due: by the lent tables, where `short` says that one is; by the map; and by `more`, what the call
// is judged by besides.
#[tactic(auto, unfolding(limits::specs::Words::word_on))]
pub fn refuse(short: bool, map: Map, more: Due) -> Result<(), Refusal>
    ensures { code result ≡ first_on order (word_on more.word (on_map short map [])) }
{
    more.and(Refusal::ManyPoints, POINTS < map.points)
        .and(Refusal::ManyCells, CELLS < map.cells)
        .and(Refusal::Radius, bad_radius(map.size, map.radius))
        .and(Refusal::CellSize, bad_size(map.size))
        .and(Refusal::ShortTable, short)
        .first()
}
