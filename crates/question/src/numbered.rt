// A question by its shape's number, as the border has it.
ghost use Rattle.std.specs.Prelude.{◌≡◌};
ghost use Rattle.question.specs.Numbered.{question_of};

use crate::search::Question;
use plane::point::Point;

// 0 is a point, 1 a square, 2 a circle, 3 a sweep; no other number names a shape.
#[tactic(auto, unfolding(crate::specs::Numbered::question_of))]
pub fn question_of(shape: u8, p: Point, q: Point, extent: f64) -> Option<Question>
    ensures { result ≡ question_of shape p q extent }
{
    match shape {
        0 => Some(Question::Point(p)),
        1 => Some(Question::Square(p, extent)),
        2 => Some(Question::Circle(p, extent)),
        3 => Some(Question::Sweep(p, q, extent)),
        _ => None,
    }
}
