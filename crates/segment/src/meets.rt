// The last steps of the near test: whether a segment meets the inside of a cell.
ghost use Rattle.std.specs.Prelude.{◌≡◌, ◌&&◌};
ghost use Rattle.std.specs.Float.Ieee.{lt};
ghost use Rattle.model.specs.Segment.{between, meets};
ghost use Rattle.segment.specs.Crossing.{values};
ghost use Rattle.plane.specs.Values.{pt};
ghost use Rattle.segment.specs.Values.{seg};

use crate::line::{Crossings, LineSegment};
use plane::point::Point;

// Whether v lies strictly between.
fn within(low: f64, v: f64, high: f64) -> bool
    ensures { result ≡ (lt low v && lt v high) }
{
    low < v && v < high
}

// Strictly inside the cell from a to b.
fn inside(p: Point, a: Point, b: Point) -> bool
    ensures { result ≡ (lt a.x p.x && lt p.x b.x && lt a.y p.y && lt p.y b.y) }
{
    within(a.x, p.x, b.x) && within(a.y, p.y, b.y)
}

// Whether one of the values lies strictly between.
#[tactic(auto, unfolding(model::specs::Segment::between))]
fn one_within(low: f64, v: Crossings, high: f64) -> bool
    ensures { result ≡ between low high (values v) }
{
    match v.count {
        0 => false,
        1 => within(low, v.first, high),
        _ => within(low, v.first, high) || within(low, v.second, high),
    }
}

// An end strictly inside the cell from a to b, or a crossing of one of its sides.
#[tactic(auto, using(crate::proofs::CrossingLaws::places_hold), unfolding(model::specs::Segment::meets, model::specs::Segment::horizontal_at))]
pub(crate) fn meets_cell(s: LineSegment, a: Point, b: Point) -> bool
    ensures { result ≡ meets (seg s) (pt a) (pt b) }
{
    inside(s.p0, a, b)
        || inside(s.p1, a, b)
        || one_within(a.y, s.vertical_intersect(a.x), b.y)
        || one_within(a.y, s.vertical_intersect(b.x), b.y)
        || one_within(a.x, s.horizontal_intersect(a.y), b.x)
        || one_within(a.x, s.horizontal_intersect(b.y), b.x)
}
