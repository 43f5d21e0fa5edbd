// `Cell`, as the border has it, and as a key, which is what the tables hold.
ghost use Rattle.std.specs.Prelude.{◌≡◌};
ghost use Rattle.model.specs.Cell.{key, x_of, y_of};
ghost use Rattle.model.specs.Maps.{AscL, has};

use sizes::COLUMN;

#[repr(C)]
#[derive(Clone, Copy)]
pub struct Cell {
    pub x: i64,
    pub y: i64,
}

impl Cell {
    // A coordinate beyond what a key can hold is brought to the nearer end, where no cell is ever
    // occupied.
    pub fn key(self) -> u64
        ensures { result ≡ key self.x self.y }
    {
        ieee::whole::bias(self.x) * COLUMN + ieee::whole::bias(self.y)
    }

    pub fn of_key(k: u64) -> Cell
        ensures { (result.x ≡ x_of k) × (result.y ≡ y_of k) }
    {
        Cell {
            x: (k / COLUMN) as i64 - 2147483648,
            y: (k % COLUMN) as i64 - 2147483648,
        }
    }
}

// `is_occupied`, for any pair of i64.
pub fn is_occupied(cells: &[u64], cell: Cell) -> bool
    ensures { AscL 0 cells.now → result ≡ has (key cell.x cell.y) cells.now }
{
    table::place::contains(cells, cell.key())
}
