// Whether a cell is within reach of a point.
ghost use Rattle.std.specs.Prelude.{◌≡◌, ◌&&◌, leb};
ghost use Rattle.model.specs.Cell.{apart, col, row};

use sizes::COLUMN;

fn difference(a: u64, b: u64) -> u64
    ensures { result ≡ apart a b }
{
    if a < b { b - a } else { a - b }
}

// Whether two cells are at most `reach` apart on both axes.
pub(crate) fn within(a: u64, b: u64, reach: u64) -> bool
    ensures { result ≡ (leb (apart (col a) (col b)) reach && leb (apart (row a) (row b)) reach) }
{
    difference(a / COLUMN, b / COLUMN) <= reach && difference(a % COLUMN, b % COLUMN) <= reach
}
