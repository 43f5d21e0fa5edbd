// The lines of pairs: `e x y x y blocker`.
ghost use Rattle.print.specs.Printed.{PrintedRows, pair_row};

use crate::line::{Line, put_lines};
use crate::printer::Printer;

struct Pair;

impl Line<u64> for Pair {
    ghost line = { pair_row };

    fn put(to: &mut Printer, lesser: u64, greater: u64, block: u64) {
        to.start(b"e ", lesser);
        to.cell(greater, b' ');
        to.end(block);
    }
}

// A line for each lesser cell, with its greater cell and its blocker's code. Nothing is written where there is not room for 80 bytes a line.
pub fn put_pairs(
    out: &mut [u8],
    at: usize,
    lesser: &[u64],
    greater: &[u64],
    blocks: &[u64],
) -> usize
    ensures { PrintedRows pair_row lesser.now greater.now blocks.now at result out.old out.new }
{
    put_lines::<u64, Pair>(out, at, lesser, greater, blocks)
}
