// The circle test of one cell: `is_circle_occupied`, past the ranges of its loops.
ghost use Rattle.std.specs.Prelude.{◌≡◌};
ghost use Rattle.plane.specs.Values.{pt, vec};
ghost use Rattle.shape.specs.Circle.{circle_of, point_within, line_within, facing, sides_within, circle_meets};

use plane::cell;
use plane::point::{Point, Vector};

// What is the same for all cells. `square` is the radius's square. A cell whose centre's distance has a
// square below `close` is met, and one where it is `far` or above is not.
#[derive(Clone, Copy)]
pub struct Circle {
    pub size: f64,
    pub p: Point,
    pub radius: f64,
    pub square: f64,
    pub close: f64,
    pub far: f64,
}

// The Rust's closures, with the radius's square handed in.
#[tactic(auto, unfolding(crate::specs::Circle::point_within))]
fn point_inside(p: Point, square: f64, q: Point) -> bool
    ensures { result ≡ point_within (pt p) square (pt q) }
{
    let dp = p.minus(q);
    dp.dot(dp) < square
}

// The root is taken only where neither end is inside.
#[tactic(auto, unfolding(crate::specs::Circle::line_within))]
fn line_inside(p: Point, square: f64, p0: Point, p1: Point) -> bool
    ensures { result ≡ line_within (pt p) square (pt p0) (pt p1) }
{
    if point_inside(p, square, p0) || point_inside(p, square, p1) {
        return true;
    }
    let v = p1.minus(p0);
    let length = v.norm();
    let n = v.over(length);
    let s = p.minus(p0).dot(n);
    if s <= 0.0 || length <= s {
        return false;
    }
    let dp = p0.plus(n.times(s)).minus(p);
    dp.dot(dp) < square
}

impl Circle {
    // 1.4142135623730951 is Rust's SQRT_2.
    #[tactic(auto, unfolding(crate::specs::Circle::circle_of, model::specs::Plane::root2))]
    pub fn new(size: f64, p: Point, radius: f64) -> Circle
        ensures { result ≡ circle_of size (pt p) radius }
    {
        let m = radius + size / 2.0;
        let n = radius + 1.4142135623730951 * size / 2.0;
        Circle {
            size,
            p,
            radius,
            square: radius * radius,
            close: m * m,
            far: n * n,
        }
    }

    // Of two opposite sides, from `high` to b and from a to `low`, the one that faces the circle.
    fn facing_inside(self, d: f64, high: Point, b: Point, a: Point, low: Point) -> bool
        ensures { result ≡ facing d (line_within (pt self.p) self.square (pt high) (pt b))
            (line_within (pt self.p) self.square (pt a) (pt low)) }
    {
        if d > 0.0 {
            return line_inside(self.p, self.square, high, b);
        }
        d < 0.0 && line_inside(self.p, self.square, a, low)
    }

    // The sides that face the circle, of the cell with the outer corners a and b.
    #[tactic(auto, unfolding(crate::specs::Circle::sides_within))]
    fn sides_inside(self, dp: Vector, a: Point, b: Point) -> bool
        ensures { result ≡ sides_within (pt self.p) self.square (vec dp) (pt a) (pt b) }
    {
        let right = Point { x: b.x, y: a.y };
        let left = Point { x: a.x, y: b.y };
        self.facing_inside(dp.x, right, b, a, left) || self.facing_inside(dp.y, left, b, a, right)
    }

    // Whether the circle meets the cell.
    #[tactic(auto, using(crate::proofs::CircleLaws::meets_close, crate::proofs::CircleLaws::meets_far, crate::proofs::CircleLaws::meets_sides))]
    pub fn meets(self, cell: u64) -> bool
        ensures { result ≡ circle_meets self cell }
    {
        let size = self.size;
        let dp = self.p.minus(cell::centre(cell, size));
        let far = dp.dot(dp);
        if far < self.close {
            return true;
        }
        if self.far <= far {
            return false;
        }
        self.sides_inside(dp, cell::corner(cell, 0, size), cell::corner(cell, 3, size))
    }
}
