// What the programs that replay vectors share: a line of fixed length from the input, a letter and
// operands of sixteen hexadecimal digits (patterns.rt), and the answer's digits after it in the output.

use std::io;
use std::io::{Read, Write};

// The next line, where the input has that much.
pub fn read_line<const N: usize, R: Read>(input: &mut R) -> Option<[u8; N]> {
    let mut line = [0u8; N];
    input.read_exact(&mut line).ok()?;
    Some(line)
}

// Writes the pattern's digits, and what is to follow them.
pub fn write_pattern<W: Write>(output: &mut W, pattern: u64, end: &[u8]) -> io::Result<()> {
    write!(output, "{pattern:016x}")?;
    output.write_all(end)
}

// Writes a two's complement in decimals, and what is to follow it.
pub fn write_number<W: Write>(output: &mut W, pattern: u64, end: &[u8]) -> io::Result<()> {
    write!(output, "{}", pattern.cast_signed())?;
    output.write_all(end)
}

// A line that is to be answered, and where the answer goes.
#[derive(Drop)]
pub struct Reply<'a, W> {
    pub line: &'a [u8],
    pub output: &'a mut W,
}

impl<W: Write> Reply<'_, W> {
    // Writes the line again, with its answer's numbers in front of its end.
    pub fn answer(&mut self, numbers: &[u64]) -> io::Result<()> {
        let [front @ .., _] = self.line else {
            return Ok(());
        };
        self.output.write_all(front)?;
        for number in numbers {
            self.output.write_all(b" ")?;
            write_number(self.output, *number, b"")?;
        }
        self.output.write_all(b"\n")
    }
}
