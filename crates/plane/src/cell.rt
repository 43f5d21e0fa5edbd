// Where a cell lies: its corners, its centre, and its columns' and rows' ends.
ghost use Rattle.std.specs.Prelude.{◌≡◌, ◌+◌, ◌/◌, ◌%◌, ◌≤◌, pos};
ghost use Rattle.std.specs.Float.{binary64};
ghost use Rattle.std.specs.Float.Ieee.{of_int};
ghost use Rattle.ieee.specs.Whole.{unbias};
ghost use Rattle.model.specs.Cell.{W};
ghost use Rattle.model.specs.Plane.{centre, low_corner};
ghost use Rattle.plane.specs.Values.{pt};
ghost use Rattle.plane.specs.Edge.{edge_of};

use crate::point::Point;
use sizes::COLUMN;

// The number of the column or row n: at most 2 ^ 31 in size, and so the cast exact.
fn column(n: u64) -> f64
    requires { n ≤ W }
    ensures { result ≡ of_int binary64 (unbias n) }
{
    (n as i64 - 2147483648) as f64
}

fn edge(n: u64, size: f64) -> f64
    requires { n ≤ W }
    ensures { result ≡ edge_of size n }
{
    size * column(n)
}

// Where the column or row n begins, and where it ends.
pub fn begins(n: u32, size: f64) -> f64
    ensures { result ≡ edge_of size n }
{
    edge(n as u64, size)
}

pub fn ends(n: u32, size: f64) -> f64
    ensures { result ≡ edge_of size (n + 1) }
{
    edge(n as u64 + 1, size)
}

// The corners in the Rust's order, (0,0), (0,1), (1,0), (1,1), by their number: the Rust's
// `cell.shifted(m, n).bottom_left_point(size)`. A higher number counts from 0 again.
// A number and no enum: what is promised holds for every number, and the near test counts through them.
#[tactic(auto, using(ieee::proofs::Unbiased::column_next), unfolding(model::specs::Plane::low_corner))]
pub fn corner(cell: u64, i: u64, size: f64) -> Point
    ensures { pt result ≡ low_corner size cell (pos (i / 2 % 2)) (pos (i % 2)) }
{
    Point {
        x: edge(cell / COLUMN + i / 2 % 2, size),
        y: edge(cell % COLUMN + i % 2, size),
    }
}

pub fn centre(cell: u64, size: f64) -> Point
    ensures { pt result ≡ centre size cell }
{
    Point {
        x: size * (column(cell / COLUMN) + 0.5),
        y: size * (column(cell % COLUMN) + 0.5),
    }
}
