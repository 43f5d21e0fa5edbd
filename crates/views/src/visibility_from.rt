// The points in sight of a cell (`calculate_visibility`).
ghost use Rattle.std.specs.Prelude.{◌≡◌, ◌&&◌, ℕ, ◌<◌, ◌≤◌, eqb, get_or, length};
ghost use Rattle.std.proofs.Math.Option.{Option};
ghost use Rattle.answers.specs.Asking.{Front};
ghost use Rattle.answers.specs.Told.{counted};
ghost use Rattle.held.specs.Layers.{blocks_of, statuses_of};
ghost use Rattle.held.specs.Lent.{viewed};
ghost use Rattle.model.specs.Answers.{free};
ghost use Rattle.model.specs.Corner.{Bits, number, sees};
ghost use Rattle.model.specs.Good.{Inside};
ghost use Rattle.model.specs.Layer.{Points};
ghost use Rattle.model.specs.Limits.{max_coordinate};
ghost use Rattle.model.specs.Map.{tests};
ghost use Rattle.model.specs.Maps.{AscL, keys};
ghost use Rattle.held.specs.Codes.{AllNamed, Named, block_code, codes};
ghost use Rattle.table.specs.Tables.{All};
ghost use Rattle.views.specs.Seen.{InSight};
ghost use Rattle.views.specs.Kept.{marked, seen};

use answers::judge::{off_edge, refuse};
use answers::keep::{Test, keep};
use held::map::Map;
use held::tables::View;
use limits::cell::Cell;
use limits::refusal::Refusal;
use looks::quadrant::sees;
use looks::tests::Ground;
use sizes::POINTS;
use table::place::{place, stands_at};

// Whether the number of a pair says that nothing blocks it.
#[derive(Clone, Copy)]
struct OpenPair<'a> {
    row: &'a [u64],
}

impl Test for OpenPair<'_> {
    ghost says = { λ s i n x r. i < n → n ≤ length s.row.now → r ≡ eqb (get_or s.row.now i 0) 1 };

    fn keeps(&self, i: usize, n: usize, _x: u64) -> bool {
        i < n && n <= self.row.len() && self.row[i] == 1
    }
}

// From a point, whose pairs are `row`: those of its pairs that nothing blocks, without looking at what blocks the points.
fn write_paired(points: &[u64], row: &[u64], out: &mut [u64]) -> usize
    requires { (length points.now ≤ length row.now) × (length points.now ≤ length out.old) }
    ensures { Front (marked points.now row.now) result out.old out.new }
{
    keep(points, out, OpenPair { row })
}

// Whether a point of this status and blocker is seen from the cell k, which is none.
fn is_seen(ground: Ground, k: u64, p: u64, status: u8, blocker: u64) -> bool
    ensures { (b : Bits) (o : Option ℕ) → AscL 0 ground.entry.cells.now → All (Inside max_coordinate) ground.entry.cells.now
        → status ≡ number b → blocker ≡ block_code o → Named o
        → result ≡ (free o && (sees k p b && free ((tests ground.entry.size ground.entry.radius).sweep ground.entry.cells.now k p).cell)) }
{
    blocker == 0 && sees(k, p, status) && ground.sweep_between(k, p) == 0
}

// Whether a point is seen from the cell k.
#[derive(Clone, Copy)]
struct Sight<'a> {
    ground: Ground<'a>,
    statuses: &'a [u8],
    blockers: &'a [u64],
    k: u64,
}

impl Test for Sight<'_> {
    ghost says = { λ s i n x r. i < n → n ≤ length s.statuses.now → n ≤ length s.blockers.now
        → (b : Bits) (o : Option ℕ) → AscL 0 s.ground.cells.now → All (Inside max_coordinate) s.ground.cells.now
        → get_or s.statuses.now i 0 ≡ number b → get_or s.blockers.now i 0 ≡ block_code o → Named o
        → r ≡ (free o && (sees s.k x b && free ((tests s.ground.size s.ground.radius).sweep s.ground.cells.now s.k x).cell)) };

    fn keeps(&self, i: usize, n: usize, x: u64) -> bool {
        i < n
            && n <= self.statuses.len()
            && n <= self.blockers.len()
            && is_seen(self.ground, self.k, x, self.statuses[i], self.blockers[i])
    }
}

// From any other cell.
fn write_seen(
    ground: Ground,
    points: &[u64],
    statuses: &[u8],
    blockers: &[u64],
    k: u64,
    out: &mut [u64],
) -> usize
    requires { (length points.now ≤ length statuses.now) × (length points.now ≤ length blockers.now) × (length points.now ≤ length out.old) }
    ensures { (ps : Points) → AscL 0 ground.entry.cells.now → All (Inside max_coordinate) ground.entry.cells.now
        → points.now ≡ keys ps → statuses.now ≡ statuses_of ps → blockers.now ≡ codes (blocks_of ps) → AllNamed (blocks_of ps)
        → Front (seen ground.entry.size ground.entry.radius ground.entry.cells.now k ps) result out.old out.new }
{
    let test = Sight {
        ground,
        statuses,
        blockers,
        k,
    };
    keep(points, out, test)
}

// What is in sight of a cell: a point's open pairs, or what is seen from any other cell.
pub fn visibility_from(
    map: Map,
    tables: View,
    cell: Cell,
    out: &mut [u64],
) -> Result<usize, Refusal>
    ensures { InSight map (viewed tables.entry) out.old cell.x cell.y out.new (counted result) }
{
    let short = tables.is_short() || out.len() < POINTS;
    refuse(short, map, off_edge(cell))?;
    let c = map.cells;
    let n = map.points;
    let k = cell.key();
    let points = &tables.points[..n];
    let at = place(points, k);
    if stands_at(points, at, k) {
        let row = &tables.pairs[POINTS * at..POINTS * at + n];
        return Ok(write_paired(points, row, out));
    }
    let ground = Ground {
        size: map.size,
        radius: map.radius,
        cells: &tables.cells[..c],
    };
    let found = write_seen(
        ground,
        points,
        &tables.statuses[..n],
        &tables.blockers[..n],
        k,
        out,
    );
    Ok(found)
}
