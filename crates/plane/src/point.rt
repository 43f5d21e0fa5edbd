// Points and vectors of floats by value (nalgebra's Point2 and Vector2).
ghost use Rattle.std.specs.Prelude.{◌≡◌};
ghost use Rattle.model.specs.Plane.{plus, minus, times, over, dot, norm, turned};
ghost use Rattle.plane.specs.Values.{pt, vec};

#[repr(C)]
#[derive(Clone, Copy)]
pub struct Point {
    pub x: f64,
    pub y: f64,
}

#[derive(Clone, Copy)]
pub struct Vector {
    pub x: f64,
    pub y: f64,
}

#[tactic(auto, unfolding(model::specs::Plane::minus, model::specs::Plane::plus))]
impl Point {
    // The vector from `other` to this point.
    pub fn minus(self, other: Point) -> Vector
        ensures { vec result ≡ minus (pt self) (pt other) }
    {
        Vector {
            x: self.x - other.x,
            y: self.y - other.y,
        }
    }

    pub fn plus(self, v: Vector) -> Point
        ensures { pt result ≡ plus (pt self) (vec v) }
    {
        Point {
            x: self.x + v.x,
            y: self.y + v.y,
        }
    }

    // The point from which v leads to this one.
    pub fn less(self, v: Vector) -> Point
        ensures { pt result ≡ minus (pt self) (vec v) }
    {
        Point {
            x: self.x - v.x,
            y: self.y - v.y,
        }
    }
}

#[tactic(auto, unfolding(model::specs::Plane::minus, model::specs::Plane::times, model::specs::Plane::over, model::specs::Plane::dot, model::specs::Plane::norm, model::specs::Plane::turned))]
impl Vector {
    pub fn minus(self, w: Vector) -> Vector
        ensures { vec result ≡ minus (vec self) (vec w) }
    {
        Vector {
            x: self.x - w.x,
            y: self.y - w.y,
        }
    }

    pub fn times(self, factor: f64) -> Vector
        ensures { vec result ≡ times (vec self) factor }
    {
        Vector {
            x: self.x * factor,
            y: self.y * factor,
        }
    }

    pub fn over(self, divisor: f64) -> Vector
        ensures { vec result ≡ over (vec self) divisor }
    {
        Vector {
            x: self.x / divisor,
            y: self.y / divisor,
        }
    }

    pub fn dot(self, other: Vector) -> f64
        ensures { result ≡ dot (vec self) (vec other) }
    {
        self.x * other.x + self.y * other.y
    }

    pub fn norm(self) -> f64
        ensures { result ≡ norm (vec self) }
    {
        ieee::root::root(self.dot(self))
    }

    // A quarter turn to the left.
    pub fn turned(self) -> Vector
        ensures { vec result ≡ turned (vec self) }
    {
        Vector {
            x: -self.y,
            y: self.x,
        }
    }
}
