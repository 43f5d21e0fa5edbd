// The lines of points: `p x y status blocker`.
ghost use Rattle.print.specs.Printed.{PrintedRows, point_row};

use crate::line::{Line, put_lines};
use crate::printer::Printer;

struct Point;

impl Line<u8> for Point {
    ghost line = { point_row };

    fn put(to: &mut Printer, key: u64, status: u8, block: u64) {
        to.start(b"p ", key);
        to.number(status as u64);
        to.end(block);
    }
}

// A line for each key, with its status and its blocker's code. Nothing is written where there is not room for 80 bytes a line.
pub fn put_points(out: &mut [u8], at: usize, keys: &[u64], statuses: &[u8], blocks: &[u64]) -> usize
    ensures { PrintedRows point_row keys.now statuses.now blocks.now at result out.old out.new }
{
    put_lines::<u8, Point>(out, at, keys, statuses, blocks)
}
