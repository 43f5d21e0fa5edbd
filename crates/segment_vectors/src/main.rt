// Replays the vectors on standard input: each line is a letter for the function and seven operands of sixteen
// digits, 121 bytes in all, and comes back with the answer after it. What the Rust answers is in the file
// stdout beside src/.
//
// v, h  p0.x p0.y p1.x p1.y, and x or y: vertical_intersect, horizontal_intersect
// d     p0.x p0.y p1.x p1.y p.x p.y: distance_from_point
// n     p0.x p0.y p1.x p1.y, the cell's key, its size, the radius: passes_near_cell
// l, g  1 for a value and 0 for none, the value, the other one: SearchF64's least, greatest
//
// An operand that is not used is 0. The key and the 1 or 0 are plain numbers, all else are bit patterns of f64.
// An answer is how many values there are, then the first and the second, 0 where there is none. The near test
// answers 1 or 0, and no value.
#![tactic(auto)]

use plane::point::Point;
use replay::lines::{read_line, write_pattern};
use replay::patterns::{float_at, pattern_at, pattern_of, point_at};
use replay::program::{Program, run};
use segment::line::{Crossings, LineSegment};
use segment::search::SearchF64;
use std::io;
use std::io::{Read, Write};

// A search that has seen a value, or none yet.
fn search_at(line: &[u8]) -> SearchF64 {
    let seen = pattern_at(line, 2) != 0;
    SearchF64 {
        value: seen.then_some(float_at(line, 19)),
    }
}

// At most one value.
fn single(value: Option<f64>) -> Crossings {
    Crossings {
        count: value.is_some() as u8,
        first: value.unwrap_or(0.0),
        second: 0.0,
    }
}

fn answer(function: u8, line: &[u8]) -> Crossings {
    let s = LineSegment {
        p0: point_at(line, 2),
        p1: point_at(line, 36),
    };
    let a = float_at(line, 70);
    let b = float_at(line, 87);
    match function {
        b'v' => s.vertical_intersect(a),
        b'h' => s.horizontal_intersect(a),
        b'd' => single(Some(s.distance_from_point(Point { x: a, y: b }))),
        b'n' => {
            let near = s.passes_near_cell(pattern_at(line, 70), b, float_at(line, 104));
            single(near.then_some(0.0))
        }
        b'l' => single(search_at(line).least(float_at(line, 36)).value),
        b'g' => single(search_at(line).greatest(float_at(line, 36)).value),
        _ => single(None),
    }
}

// Nothing is kept from line to line.
#[derive(Drop)]
struct Segments;

impl Program for Segments {
    fn replay<R: Read, W: Write>(&mut self, input: &mut R, output: &mut W) -> io::Result<bool> {
        let Some(mut line) = read_line::<121, R>(input) else {
            return Ok(false);
        };
        let given = answer(line[0], &line);
        line[120] = b' ';
        output.write_all(&line)?;
        write_pattern(output, given.count as u64, b" ")?;
        write_pattern(output, pattern_of(given.first), b" ")?;
        write_pattern(output, pattern_of(given.second), b"\n")?;
        Ok(true)
    }
}

fn main(rt: HostRuntime) -> io::Result<()> {
    run(&mut Segments, &mut rt.stdin(), &mut rt.stdout())
}
