// `LineSegment`: where it crosses an upright or a level line, and how far a point is from it.
ghost use Rattle.std.specs.Prelude.{◌≡◌};
ghost use Rattle.model.specs.Segment.{mirrored, vertical_at, horizontal_at};
ghost use Rattle.segment.specs.Crossing.{places};
ghost use Rattle.plane.specs.Values.{pt};
ghost use Rattle.segment.specs.Values.{seg};

use plane::point::Point;

#[repr(C)]
#[derive(Clone, Copy)]
pub struct LineSegment {
    pub p0: Point,
    pub p1: Point,
}

// The Rust's `ArrayVec<f64, 2>`: how many, and two places, 0.0 where there is none.
// No `Option` of places: the C interface returns this struct from `runcedau_vertical`.
#[repr(C)]
#[derive(Clone, Copy)]
pub struct Crossings {
    pub count: u8,
    pub first: f64,
    pub second: f64,
}

// The segment with the axes exchanged.
fn exchanged(s: LineSegment) -> LineSegment
    ensures { (pt result.p0 ≡ mirrored (pt s.p0)) × (pt result.p1 ≡ mirrored (pt s.p1)) }
{
    LineSegment {
        p0: Point {
            x: s.p0.y,
            y: s.p0.x,
        },
        p1: Point {
            x: s.p1.y,
            y: s.p1.x,
        },
    }
}

impl LineSegment {
    // The y values at x: none, one, or both ends' where the segment is upright.
    #[tactic(auto, unfolding(model::specs::Segment::vertical_at, model::specs::Plane::tiny))]
    pub fn vertical_intersect(self, x: f64) -> Crossings
        ensures { result ≡ places (vertical_at (seg self) x) }
    {
        let a = self.p0;
        let b = self.p1;
        if (a.x > x && b.x > x) || (a.x < x && b.x < x) {
            return Crossings {
                count: 0,
                first: 0.0,
                second: 0.0,
            };
        }
        if ieee::pick::abs(b.x - a.x) < 1e-8 {
            return Crossings {
                count: 2,
                first: a.y,
                second: b.y,
            };
        }
        let m = (b.y - a.y) / (b.x - a.x);
        Crossings {
            count: 1,
            first: m * (x - a.x) + a.y,
            second: 0.0,
        }
    }

    // The x values at y.
    #[tactic(auto, unfolding(model::specs::Segment::horizontal_at))]
    pub fn horizontal_intersect(self, y: f64) -> Crossings
        ensures { result ≡ places (horizontal_at (seg self) y) }
    {
        exchanged(self).vertical_intersect(y)
    }
}
