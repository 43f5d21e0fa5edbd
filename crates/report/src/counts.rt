// The counts of a listing's first line.
ghost use Rattle.std.specs.Prelude.{◌≡◌, ◌≤◌, length};
ghost use Rattle.model.specs.Answers.{corners, open_pairs};
ghost use Rattle.model.specs.Limits.{max_cells};
ghost use Rattle.model.specs.Refusal.{short};
ghost use Rattle.held.specs.Holds.{needs};
ghost use Rattle.held.specs.Lent.{viewed};
ghost use Rattle.report.specs.Counted.{Tells, counts_of};

use answers::cells::corner_cells;
use answers::pairs::open_pairs;
use blocks::count::count_blocks;
use held::map::Map;
use held::tables::View;
use limits::refusal::Refusal;
use print::counts::Counts;
use sizes::{CELLS, LISTED};

// How many cells have a corner.
fn count_corners(map: Map, tables: View) -> Result<usize, Refusal>
    ensures { Tells map (viewed tables.entry) (λ M. length (corners M)) result }
{
    corner_cells(map, tables.cells, &mut [0; CELLS], &mut [0; CELLS])
}

// How many pairs are open.
fn count_open(map: Map, tables: View) -> Result<usize, Refusal>
    ensures { Tells map (viewed tables.entry) (λ M. length (open_pairs M)) result }
{
    open_pairs(
        map,
        tables.points,
        tables.blockers,
        tables.pairs,
        &mut [0; LISTED],
        &mut [0; LISTED],
    )
}

// The counts of a map with so many pairs.
pub(crate) fn count_all(map: Map, tables: View, edges: usize) -> Result<Counts, Refusal>
    requires { (map.cells ≤ max_cells) × (max_cells ≤ length tables.cells.now) }
    ensures { Tells map (viewed tables.entry) (counts_of map.points edges) result }
{
    Ok(Counts {
        cells: map.cells as u64,
        corners: count_corners(map, tables)? as u64,
        points: map.points as u64,
        edges: edges as u64,
        open: count_open(map, tables)? as u64,
        blocks: count_blocks(&tables.cells[..map.cells]) as u64,
    })
}
