// What the programs share that replay questions: a line's cell or question, and how a question's answer is written.
ghost use Rattle.std.specs.Prelude.{◌≡◌};
ghost use Rattle.replay.specs.Patterns.{integer_of, pattern_at};
ghost use Rattle.plane.specs.Values.{pt};
ghost use Rattle.question.specs.Question.{asked};
ghost use Rattle.replay.specs.Lines.{question_at, shaped};

use crate::lines::Reply;
use crate::patterns::{float_at, integer_at, point_at, signed};
use limits::cell::Cell;
use limits::refusal::Refusal;
use plane::point::Point;
use question::search::Question;
use std::io;
use std::io::Write;

// Column and row.
pub fn cell_at(line: &[u8]) -> Cell
    ensures { (result.x ≡ integer_of (pattern_at line.now 2)) × (result.y ≡ integer_of (pattern_at line.now 19)) }
{
    Cell {
        x: integer_at(line, 2),
        y: integer_at(line, 19),
    }
}

// The letter's shape: s, c and w, or any other for a point.
#[tactic(auto, unfolding(crate::specs::Lines::shaped))]
fn shape_of(letter: u8, p: Point, q: Point, length: f64, width: f64) -> Question
    ensures { asked result ≡ shaped letter (pt p) (pt q) length width }
{
    match letter {
        b's' => Question::Square(p, length),
        b'c' => Question::Circle(p, length),
        b'w' => Question::Sweep(p, q, width),
        _ => Question::Point(p),
    }
}

// p  x y, s  x y width, c  x y radius, w  x0 y0 x1 y1 width
pub fn question_at(letter: u8, line: &[u8]) -> Question
    ensures { asked result ≡ question_at letter line.now }
{
    let p = point_at(line, 2);
    let q = point_at(line, 36);
    shape_of(letter, p, q, float_at(line, 36), float_at(line, 70))
}

// The refusal, 1 or 0, and the cell found.
pub fn answer_place<W: Write>(
    reply: &mut Reply<'_, W>,
    answer: Result<Option<Cell>, Refusal>,
) -> io::Result<()> {
    match answer {
        Ok(Some(c)) => reply.answer(&[0, 1, signed(c.x), signed(c.y)]),
        Ok(None) => reply.answer(&[0; 4]),
        Err(refusal) => reply.answer(&[refusal.number() as u64, 0, 0, 0]),
    }
}
