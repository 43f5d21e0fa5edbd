// A line: a letter and as many operands of sixteen digits as the letter has.
ghost use Rattle.std.specs.Prelude.{◌≤◌, IfSome, length};

use std::io::Read;

// The longest line.
pub(crate) const LINE: usize = 87;

// How many operands a line of the letter has.
fn operands(letter: u8) -> usize
    ensures { result ≤ 5 }
{
    match letter {
        b'w' => 5,
        b's' | b'c' => 3,
        b'o' | b'+' | b'-' | b'i' | b'p' | b'v' | b'n' => 2,
        b'r' => 1,
        _ => 0,
    }
}

// Reads the next line, where the input has that much.
pub(crate) fn next_line<'a, R: Read>(input: &mut R, room: &'a mut [u8; LINE]) -> Option<&'a [u8]>
    ensures { IfSome result (λ l. length l.now ≤ 87) }
{
    input.read_exact(&mut room[..1]).ok()?;
    let end = 2 + 17 * operands(room[0]);
    input.read_exact(&mut room[1..end]).ok()?;
    Some(&room[..end])
}
