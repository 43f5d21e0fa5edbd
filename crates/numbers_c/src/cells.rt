// Cells and points under C names: of no map, and refusing nothing.
ghost use Rattle.std.specs.Prelude.{◌≡◌};
ghost use Rattle.std.specs.Float.{binary64};
ghost use Rattle.std.specs.Float.Ieee.{div};
ghost use Rattle.ieee.specs.Whole.{ceil_z, floor_z};
ghost use Rattle.ieee.specs.Yard.{shift_f};
ghost use Rattle.model.specs.Cell.{key, x_of, y_of};
ghost use Rattle.numbers_c.specs.Places.{along, middle};

use ieee::whole::{ceil_to_i64, floor_to_i64};
use limits::cell::Cell;
use plane::point::Point;
use std::num::nearest_i64_to_f64;

// The shift of a radius (`calculate_cell_shift`).
#[unsafe(no_mangle)]
pub extern "C" fn runcedau_shift(size: f64, radius: f64) -> i64
    ensures { result ≡ ceil_z (shift_f size radius) }
{
    ceil_to_i64(radius / size + 0.5)
}

// The cell in which a point lies (`Cell::from_point`).
#[unsafe(no_mangle)]
pub extern "C" fn runcedau_cell_of(size: f64, p: Point) -> Cell
    ensures { result ≡ record { x = floor_z (div binary64 p.x size); y = floor_z (div binary64 p.y size) } }
{
    Cell {
        x: floor_to_i64(p.x / size),
        y: floor_to_i64(p.y / size),
    }
}

// The middle of a column or a row, and where it begins.
fn middle_of(size: f64, n: i64) -> f64
    ensures { result ≡ middle size n }
{
    size * (nearest_i64_to_f64(n) + 0.5)
}

fn begin_of(size: f64, n: i64) -> f64
    ensures { result ≡ along size n }
{
    size * nearest_i64_to_f64(n)
}

// The centre of a cell (`Cell::center_point`).
#[unsafe(no_mangle)]
pub extern "C" fn runcedau_centre(size: f64, cell: Cell) -> Point
    ensures { result ≡ record { x = middle size cell.x; y = middle size cell.y } }
{
    Point {
        x: middle_of(size, cell.x),
        y: middle_of(size, cell.y),
    }
}

// The lower left corner of a cell (`Cell::bottom_left_point`).
#[unsafe(no_mangle)]
pub extern "C" fn runcedau_bottom_left(size: f64, cell: Cell) -> Point
    ensures { result ≡ record { x = along size cell.x; y = along size cell.y } }
{
    Point {
        x: begin_of(size, cell.x),
        y: begin_of(size, cell.y),
    }
}

// The cell of a key, as the lists of a map have it.
#[unsafe(no_mangle)]
pub extern "C" fn runcedau_cell_of_key(key: u64) -> Cell
    ensures { result ≡ record { x = x_of key; y = y_of key } }
{
    Cell::of_key(key)
}

// The key of a cell. A coordinate beyond what a key can hold is brought to the nearer end.
#[unsafe(no_mangle)]
pub extern "C" fn runcedau_key_of_cell(cell: Cell) -> u64
    ensures { result ≡ key cell.x cell.y }
{
    cell.key()
}
