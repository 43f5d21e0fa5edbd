// A change of the radius: points and pairs are built anew, over the same cells.
ghost use Rattle.std.specs.Prelude.{◌≡◌, ◌||◌};
ghost use Rattle.held.specs.Told.{told};
ghost use Rattle.limits.specs.Refusals.{code};
ghost use Rattle.model.specs.Refusal.{bad_radius};
ghost use Rattle.visibility.specs.Lent.{Same, over};
ghost use Rattle.visibility.specs.Radius.{Rebuilding, refuse_radius};

use crate::layer::{Basis, draw_afresh};
use crate::lent::Layer;
use crate::plan::mark;
use batches::lists::Changes;
use corner::cells::corner_cells;
use held::map::Map;
use limits::dues::Due;
use limits::judge::bad_size;
use limits::radius::{bad_radius, reach_of, shift_of};
use limits::refusal::Refusal;
use looks::tests::Ground;
use marks::lists::{Moods, Statuses};
use sizes::{CELLS, POINTS};

// 2: the radius that the map has, or the one that it is to have.
fn bad_radii(size: f64, old: f64, new: f64) -> bool
    ensures { result ≡ (bad_radius size old || bad_radius size new) }
{
    bad_radius(size, old) || bad_radius(size, new)
}

// The refusals that the map handed in and the radius decide.
fn judge(short: bool, map: Map, radius: f64) -> Result<(), Refusal>
    ensures { code result ≡ refuse_radius short map radius }
{
    Due::none()
        .and(Refusal::ManyPoints, POINTS < map.points)
        .and(Refusal::ManyCells, CELLS < map.cells)
        .and(Refusal::Radius, bad_radii(map.size, map.radius, radius))
        .and(Refusal::CellSize, bad_size(map.size))
        .and(Refusal::ShortTable, short)
        .first()
}

// Setting the same radius is a change too: blockers are worked out anew.
pub fn change_radius(
    map: Map,
    cells: &[u64],
    layer: &mut Layer,
    radius: f64,
) -> Result<Map, Refusal>
    ensures said { Rebuilding map radius (over cells.now layer.old) (over cells.now layer.new) (told result) }
    ensures same { Same layer.old layer.new }
{
    judge(layer.is_short(cells), map, radius)?;
    let cells = &cells[..map.cells];
    let mut corners = [0u64; CELLS];
    let mut altered = [0u8; CELLS];
    let found = corner_cells(cells, &mut corners[..], &mut altered[..]);
    let mut present = [0u64; POINTS];
    let mut moods = [0u64; POINTS];
    let shift = shift_of(map.size, radius);
    let none = Statuses {
        cells: &[],
        statuses: &[],
    };
    let cornered = Statuses {
        cells: &corners[..found],
        statuses: &altered[..found],
    };
    let points = mark(shift, none, cornered, &mut present, &mut moods).ok_or(Refusal::ManyPoints)?;
    let basis = Basis {
        ground: Ground {
            size: map.size,
            radius,
            cells,
        },
        reach: reach_of(shift),
        changes: Changes {
            cells: &[],
            full: &[],
        },
        points: Moods {
            points: &present[..points],
            words: &moods[..points],
        },
    };
    draw_afresh(basis, map.points, layer);
    Ok(Map {
        radius,
        points,
        ..map
    })
}
