// A program that replays vectors: what it does with a line, and all lines of the input one after another.
use std::io;
use std::io::{Read, Write};

pub trait Program {
    // Replays one line, and says whether there may be another.
    fn replay<R: Read, W: Write>(&mut self, input: &mut R, output: &mut W) -> io::Result<bool>;
}

// A proved loop has to end, and nothing says that the input does: the lines are counted.
pub fn run<P: Program, R: Read, W: Write>(
    program: &mut P,
    input: &mut R,
    output: &mut W,
) -> io::Result<()> {
    for _ in 0..u64::MAX {
        if !program.replay(input, output)? {
            break;
        }
    }
    Ok(())
}
