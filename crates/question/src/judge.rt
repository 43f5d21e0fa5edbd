// Refusal 8: a query number outside its bounds or not finite.
ghost use Rattle.std.specs.Prelude.{◌||◌, ◌≡◌};
ghost use Rattle.model.specs.Refusal.{bad_length, bad_number, bad_point, bad_question};
ghost use Rattle.plane.specs.Values.{pt};
ghost use Rattle.question.specs.Question.{asked};
ghost use Rattle.question.specs.Numbered.{bad_numbered};

use crate::search::Question;
use plane::point::Point;

// Not within 2 ^ 40 either way; a NaN is not.
fn bad_number(z: f64) -> bool
    ensures { result ≡ bad_number z }
{
    !(-1099511627776.0 <= z && z <= 1099511627776.0)
}

// Minus zero passes. A function of its own: each is one line.
fn bad_length(z: f64) -> bool
    ensures { result ≡ bad_length z }
{
    !(0.0 <= z && z <= 1099511627776.0)
}

fn bad_point(p: Point) -> bool
    ensures { result ≡ bad_point (pt p) }
{
    bad_number(p.x) || bad_number(p.y)
}

// A place and a length.
fn bad_disc(p: Point, length: f64) -> bool
    ensures { result ≡ bad_point (pt p) || bad_length length }
{
    bad_point(p) || bad_length(length)
}

#[tactic(auto, unfolding(model::specs::Refusal::bad_question))]
pub fn bad_question(question: Question) -> bool
    ensures { result ≡ bad_question (asked question) }
{
    match question {
        Question::Point(p) => bad_point(p),
        Question::Square(p, width) => bad_disc(p, width),
        Question::Circle(p, radius) => bad_disc(p, radius),
        Question::Sweep(p0, p1, width) => bad_point(p0) || bad_disc(p1, width),
    }
}

// A number that names no shape is outside its bounds.
pub fn bad_numbered(numbered: Option<Question>) -> bool
    ensures { result ≡ bad_numbered numbered }
{
    numbered.is_none_or(bad_question)
}
