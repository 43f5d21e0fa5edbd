// Segments under C names: of no map, and refusing nothing.
ghost use Rattle.std.specs.Prelude.{◌≡◌, length, nat_le};
ghost use Rattle.model.specs.Cell.{key};
ghost use Rattle.model.specs.Segment.{distance, horizontal_at, passes_near, vertical_at};
ghost use Rattle.plane.specs.Values.{pt};
ghost use Rattle.segment.specs.Crossing.{places};
ghost use Rattle.segment.specs.Values.{seg};
ghost use Rattle.numbers_c.specs.Cells.{told};

use limits::cell::Cell;
use plane::point::Point;
use segment::line::{Crossings, LineSegment};
use segment::many::NearTest;
use segment::near::Proximity;

// How far a point is from a segment.
#[unsafe(no_mangle)]
pub extern "C" fn runcedau_distance(s: LineSegment, p: Point) -> f64
    ensures { result ≡ distance (seg s) (pt p) }
{
    s.distance_from_point(p)
}

// Where a segment crosses an upright line, and a level one.
#[unsafe(no_mangle)]
pub extern "C" fn runcedau_vertical(s: LineSegment, x: f64) -> Crossings
    ensures { result ≡ places (vertical_at (seg s) x) }
{
    s.vertical_intersect(x)
}

#[unsafe(no_mangle)]
pub extern "C" fn runcedau_horizontal(s: LineSegment, y: f64) -> Crossings
    ensures { result ≡ places (horizontal_at (seg s) y) }
{
    s.horizontal_intersect(y)
}

// The near test.
#[unsafe(no_mangle)]
pub extern "C" fn runcedau_near(s: LineSegment, cell: Cell, size: f64, radius: f64) -> bool
    ensures { result ≡ passes_near (seg s) (key cell.x cell.y) size radius }
{
    s.passes_near_cell(cell.key(), size, radius)
}

// One segment against many cells: a 1 for each cell that it passes near, a 0 for each other. Nothing
// is written where there is no room for all.
#[unsafe(no_mangle)]
#[tactic(auto, unfolding(crate::specs::Cells::told))]
pub extern "C" fn runcedau_near_cells(
    s: LineSegment,
    size: f64,
    radius: f64,
    cells: &[u64],
    near: &mut [u8],
) -> bool
    ensures { (result ≡ nat_le (length cells.now) (length near.old))
        × (near.new ≡ told (seg s) size radius cells.now near.old) }
{
    if near.len() < cells.len() {
        return false;
    }
    let test = NearTest::new(s, Proximity::new(size, radius), cells.len());
    for (i, cell) in cells.iter().enumerate() {
        near[i] = u8::from(test.passes(*cell));
    }
    true
}
