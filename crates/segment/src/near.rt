// The near test: whether a segment passes near a cell. No root is taken for a corner: its square is
// compared with the root's thresholds, which are worked out once.
ghost use Rattle.std.specs.Prelude.{◌≡◌};
ghost use Rattle.model.specs.Segment.{passes_near};
ghost use Rattle.segment.specs.Near.{IsProximity, near_by};
ghost use Rattle.segment.specs.Values.{seg};

use crate::line::LineSegment;
use crate::measured::Measured;
use crate::meets;
use plane::cell::corner;

// A cell size and a radius as the near test needs them: a corner whose square is below `close` is
// nearer than the radius, and one whose square is `far` or above is at the limit or beyond it, too far
// for any part of the cell.
#[derive(Clone, Copy)]
pub struct Proximity {
    pub size: f64,
    pub limit: f64,
    pub close: f64,
    pub far: f64,
}

impl Proximity {
    // 1.4143 is slightly above the root of 2, so that no part of a cell further off is missed.
    #[tactic(auto, unfolding(model::specs::Plane::bound))]
    pub fn new(size: f64, radius: f64) -> Self
        ensures { IsProximity size radius result }
    {
        let limit = radius + 1.4143 * size;
        Proximity {
            size,
            limit,
            close: ieee::threshold::root_threshold(radius),
            far: ieee::threshold::root_threshold(limit),
        }
    }
}

impl Measured {
    // The corners in the Rust's order; where none decides, the remaining steps do.
    pub(crate) fn passes_near(self, proximity: Proximity, cell: u64) -> bool
        ensures { result ≡ near_by self proximity cell }
    {
        let size = proximity.size;
        for i in 0..4 {
            let q = self.square_to(corner(cell, i, size));
            if q < proximity.close {
                return true;
            }
            if proximity.far <= q {
                return false;
            }
        }
        let s = self.segment;
        meets::meets_cell(s, corner(cell, 0, size), corner(cell, 3, size))
    }
}

impl LineSegment {
    #[tactic(auto, using(crate::proofs::NearLaws::near_is))]
    pub fn passes_near_cell(self, cell: u64, size: f64, radius: f64) -> bool
        ensures { result ≡ passes_near (seg self) cell size radius }
    {
        let m = self.measured();
        m.passes_near(Proximity::new(size, radius), cell)
    }
}
