// Replays the vectors on standard input: each line is a letter for the function and two operands as
// bit patterns, 36 bytes in all, and comes back with the answer's pattern after it. What Rust's own
// functions answer is in the file stdout beside src/.
#![tactic(auto)]

use replay::lines::{read_line, write_pattern};
use replay::patterns::{float_at, pattern_of, signed};
use replay::program::{Program, run};
use std::io;
use std::io::{Read, Write};

fn answer(function: u8, x: f64, y: f64) -> u64 {
    match function {
        b'r' => pattern_of(ieee::root::root(x)),
        b'i' => signed(ieee::whole::cut_to_i64(x)),
        b'f' => signed(ieee::whole::floor_to_i64(x)),
        b'c' => signed(ieee::whole::ceil_to_i64(x)),
        b'd' => ieee::whole::column_of(x),
        b'u' => ieee::whole::column_up(x),
        b'a' => pattern_of(ieee::pick::abs(x)),
        b'l' => pattern_of(ieee::pick::min(x, y)),
        b'g' => pattern_of(ieee::pick::max(x, y)),
        b't' => pattern_of(ieee::threshold::root_threshold(x)),
        _ => 0,
    }
}

// Nothing is kept from line to line.
#[derive(Drop)]
struct Floats;

impl Program for Floats {
    fn replay<R: Read, W: Write>(&mut self, input: &mut R, output: &mut W) -> io::Result<bool> {
        let Some(mut line) = read_line::<36, R>(input) else {
            return Ok(false);
        };
        let given = answer(line[0], float_at(&line, 2), float_at(&line, 19));
        line[35] = b' ';
        output.write_all(&line)?;
        write_pattern(output, given, b"\n")?;
        Ok(true)
    }
}

fn main(rt: HostRuntime) -> io::Result<()> {
    run(&mut Floats, &mut rt.stdin(), &mut rt.stdout())
}
