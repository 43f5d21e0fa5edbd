// The four tests on a table of cells. Nothing is asked of the table, and no number is refused here.
ghost use Rattle.std.specs.Prelude.{cond, ◌≡◌};
ghost use Rattle.std.proofs.Math.Option.{none, some};
ghost use Rattle.model.specs.Maps.{AscL};
ghost use Rattle.model.specs.Shape.{ask, point_test, square_test, circle_test, sweep_test};
ghost use Rattle.plane.specs.Values.{pt};
ghost use Rattle.question.specs.Question.{asked};
ghost use Rattle.question.specs.Walk.{Tested, bounds_around, found_as, keyed};

use crate::walk::{Flat, Round, Swept, first_taken};
use plane::point::Point;
use shape::bounds::Bounds;
use shape::circle::Circle;
use shape::sweep::Strip;
use sizes::COLUMN;
use table::place::contains;

// One question carries its shape and that shape's own lengths: a point; a centre and a width; a centre and a
// radius; two points and a width.
#[derive(Clone, Copy)]
pub enum Question {
    Point(Point),
    Square(Point, f64),
    Circle(Point, f64),
    Sweep(Point, Point, f64),
}

// What a test finds: a cell's key, or none, and then the key is 0. No Option: whether something is found is often not to be
// predicted, and a struct of numbers needs no branch (measured, docs/DECISIONS.md).
#[derive(Clone, Copy)]
pub struct Found {
    pub some: bool,
    pub key: u64,
}

impl Found {
    pub(crate) fn nothing() -> Found
        ensures { result ≡ keyed none }
    {
        Found {
            some: false,
            key: 0,
        }
    }

    // k where it is a hit, else none. In a function of its own this compiles to a choice with no branch; where `point`
    // tests the hit itself, it is a jump.
    pub(crate) fn only(hit: bool, k: u64) -> Found
        ensures { result ≡ keyed (cond hit (some k) none) }
    {
        if hit {
            return Found { some: true, key: k };
        }
        Found::nothing()
    }
}

// `is_point_occupied`
fn point(size: f64, cells: &[u64], p: Point) -> Found
    ensures { AscL 0 cells.now → result ≡ found_as (point_test size cells.now (pt p)) }
{
    let k = ieee::whole::column_of(p.x / size) * COLUMN + ieee::whole::column_of(p.y / size);
    Found::only(contains(cells, k), k)
}

// The columns or rows of a square of half the width d.
fn around(size: f64, z: f64, d: f64) -> Bounds
    ensures { result ≡ bounds_around size z d }
{
    Bounds::between((z - d) / size, (z + d) / size)
}

// `is_square_occupied`
fn square(size: f64, cells: &[u64], p: Point, width: f64) -> Found
    ensures { Tested cells.now (square_test size cells.now (pt p) width) result }
{
    let d = width / 2.0;
    let rows = around(size, p.y, d);
    first_taken(cells, around(size, p.x, d), Flat { rows })
}

// `is_circle_occupied`
fn circle(size: f64, cells: &[u64], p: Point, radius: f64) -> Found
    ensures { Tested cells.now (circle_test size cells.now (pt p) radius) result }
{
    let rows = around(size, p.y, radius);
    let circle = Circle::new(size, p, radius);
    first_taken(cells, around(size, p.x, radius), Round { rows, circle })
}

// `is_sweep_occupied`; 1e-8 as there.
fn sweep(size: f64, cells: &[u64], p0: Point, p1: Point, width: f64) -> Found
    ensures { Tested cells.now (sweep_test size cells.now (pt p0) (pt p1) width) result }
{
    let length = p1.minus(p0).norm();
    if length < 1e-8 {
        return point(size, cells, p0);
    }
    let strip = Strip::new(p0, p1, length, width / 2.0);
    first_taken(cells, strip.columns(size), Swept { strip, size })
}

// The first occupied cell, by x, then y, that qualifies.
pub fn search(size: f64, cells: &[u64], question: Question) -> Found
    ensures { Tested cells.now (ask size cells.now (asked question)) result }
{
    match question {
        Question::Point(p) => point(size, cells, p),
        Question::Square(p, width) => square(size, cells, p, width),
        Question::Circle(p, radius) => circle(size, cells, p, radius),
        Question::Sweep(p0, p1, width) => sweep(size, cells, p0, p1, width),
    }
}
