// A line of a point or of a pair, and lines of three columns.
ghost use Rattle.std.specs.Prelude.{◌≡◌, ℕ, List, ◌+◌, ◌≤◌, length, ◌++◌, not};
ghost use Rattle.model.specs.Limits.{line_room};
ghost use Rattle.model.specs.Listing.{blocker_text, cell_text, text};
ghost use Rattle.print.specs.Printed.{PrintedRows, block_of, lines_fit};
ghost use Rattle.print.specs.Printers.{Wrote};

use crate::printer::Printer;
use sizes::LINE;

// A kind of line, of an entry of each column.
pub(crate) trait Line<T> {
    ghost line: { ℕ → T → ℕ → List ℕ };

    fn put(to: &mut Printer, first: u64, second: T, third: u64)
        requires { to.old.at + line_room ≤ length to.old.out.now }
        ensures { Wrote (line first second third) line_room to.old to.new };
}

impl Printer<'_> {
    // The kind of the line, of at most 2 bytes; a cell; and a gap.
    pub fn start(&mut self, kind: &[u8], key: u64)
        requires { (length kind.now ≤ 2) × (self.old.at + 26 ≤ length self.old.out.now) }
        ensures { Wrote (kind.now ++ cell_text key ++ text " ") 26 self.old self.new }
    {
        self.text(kind);
        self.cell(key, b' ');
        self.byte(b' ');
    }

    // A gap, a blocker, and the end of the line.
    pub fn end(&mut self, block: u64)
        requires { self.old.at + 25 ≤ length self.old.out.now }
        ensures { Wrote (text " " ++ blocker_text (block_of block) ++ text "\n") 25 self.old self.new }
    {
        self.byte(b' ');
        self.blocker(block);
        self.byte(b'\n');
    }
}

// Whether n lines from the place `at` on may not fit into `length` bytes, or the second or third column has fewer than n entries.
fn lacks_room(length: usize, at: usize, n: usize, second: usize, third: usize) -> bool
    ensures { result ≡ not (lines_fit n second third at length) }
{
    second < n || third < n || length < at || (length - at) / LINE < n
}

// A line for each entry of the first column. Nothing is written where there is not room for 80 bytes a line.
pub(crate) fn put_lines<T: Copy, L: Line<T>>(
    out: &mut [u8],
    at: usize,
    first: &[u64],
    second: &[T],
    third: &[u64],
) -> usize
    ensures { PrintedRows L.line first.now second.now third.now at result out.old out.new }
{
    if lacks_room(out.len(), at, first.len(), second.len(), third.len()) {
        return at;
    }
    let mut printer = Printer { out, at };
    // By places: three columns side by side, as C lends them.
    for i in 0..first.len() {
        L::put(&mut printer, first[i], second[i], third[i]);
    }
    printer.at
}
