// How far a point is from a segment. The segment's length and direction are worked out once, where the
// Rust takes them anew for every point: the same bits.
ghost use Rattle.std.specs.Prelude.{◌≡◌};
ghost use Rattle.model.specs.Segment.{distance};
ghost use Rattle.plane.specs.Values.{pt};
ghost use Rattle.segment.specs.Values.{seg};
ghost use Rattle.segment.specs.Squared.{measured_of, squared};

use crate::line::LineSegment;
use plane::point::{Point, Vector};

#[derive(Clone, Copy)]
pub(crate) struct Measured {
    pub segment: LineSegment,
    pub length: f64,
    pub unit: Vector,
}

impl LineSegment {
    #[tactic(auto, unfolding(crate::specs::Squared::measured_of))]
    pub(crate) fn measured(self) -> Measured
        ensures { result ≡ measured_of self }
    {
        let p0 = self.p0;
        let p1 = self.p1;
        let along = p1.minus(p0);
        let length = along.norm();
        let unit = along.over(length);
        Measured {
            segment: self,
            length,
            unit,
        }
    }

    #[tactic(auto, using(crate::proofs::SquaredLaws::distance_root))]
    pub fn distance_from_point(self, p: Point) -> f64
        ensures { result ≡ distance (seg self) (pt p) }
    {
        ieee::root::root(self.measured().square_to(p))
    }
}

impl Measured {
    // The square of the distance: what the root is taken of. All three squares are worked out before
    // one is picked, since where a point lies cannot be predicted and a wrong guess costs more.
    #[tactic(auto, unfolding(crate::specs::Squared::squared, model::specs::Plane::tiny))]
    pub(crate) fn square_to(self, p: Point) -> f64
        ensures { result ≡ squared self (pt p) }
    {
        let s = self.segment;
        let length = self.length;
        let unit = self.unit;
        let p0 = s.p0;
        let p1 = s.p1;
        let v = p.minus(p0);
        let w = p.minus(p1);
        let shadow = v.dot(unit);
        let across = v.minus(unit.times(shadow));
        let to_first = v.dot(v);
        let to_second = w.dot(w);
        let to_line = across.dot(across);
        if length < 1e-8 || shadow < 0.0 {
            return to_first;
        }
        if shadow > length {
            return to_second;
        }
        to_line
    }
}
