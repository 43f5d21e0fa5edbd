// Opening a map.
ghost use Rattle.std.specs.Prelude.{◌≡◌, ◌≤◌, [], ◌∷◌, ◌++◌, drop, length, replicate};
ghost use Rattle.held.specs.Lent.{Same, lists_of};
ghost use Rattle.held.specs.Told.{told};
ghost use Rattle.limits.specs.Refusals.{code};
ghost use Rattle.model.specs.Refusal.{bad_radius, bad_size, verdict};
ghost use Rattle.visibility.specs.Open.{Opening};

use held::map::Map;
use held::tables::Tables;
use limits::dues::Due;
use limits::judge::bad_size;
use limits::radius::bad_radius;
use limits::refusal::Refusal;
use sizes::{CELLS, PAIRS, POINTS};
use table::copy::fill;

// The refusals, in their order: 9; 1; 2.
fn judge(short: bool, size: f64, radius: f64) -> Result<(), Refusal>
    ensures { code result ≡ verdict ((9, short) ∷ (1, bad_size size) ∷ (2, bad_radius size radius) ∷ []) }
{
    Due::none()
        .and(Refusal::Radius, bad_radius(size, radius))
        .and(Refusal::CellSize, bad_size(size))
        .and(Refusal::ShortTable, short)
        .first()
}

// The first n places become zero, the others stay.
fn clear<T: Copy>(t: &mut [T], n: usize, zero: T)
    requires { n ≤ length t.old }
    ensures { t.new ≡ replicate n zero ++ drop n t.old }
{
    fill(&mut t[..n], zero);
}

// Clears the tables up to their fixed need.
pub fn open(size: f64, radius: f64, tables: &mut Tables) -> Result<Map, Refusal>
    ensures said { Opening size radius (lists_of tables.old) (lists_of tables.new) (told result) }
    ensures same { Same tables.old tables.new }
{
    judge(tables.is_short(), size, radius)?;
    clear(tables.cells, CELLS, 0);
    clear(tables.points, POINTS, 0);
    clear(tables.statuses, POINTS, 0);
    clear(tables.blockers, POINTS, 0);
    clear(tables.pairs, PAIRS, 0);
    Ok(Map {
        size,
        radius,
        cells: 0,
        points: 0,
    })
}
