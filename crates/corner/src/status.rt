// The status of a cell, worked out from the cells around it.
ghost use Rattle.std.specs.Prelude.{◌≡◌, ◌+◌, ◌^◌, ◌<◌, ◌≤◌};
ghost use Rattle.model.specs.Cell.{W};
ghost use Rattle.model.specs.Corner.{number, status_of};
ghost use Rattle.model.specs.Maps.{AscL};
ghost use Rattle.corner.specs.Corners.{bit_if};
ghost use Rattle.corner.specs.Weights.{dir, weight};

use crate::bits::Corner;
use sizes::COLUMN;
use table::place::contains;

// From a cell to the one northeast of it, and the first key that has none.
const DIAGONAL: u64 = COLUMN + 1;

const OUTERMOST: u64 = u64::MAX - COLUMN;

// The corner's bit, where none of the three is occupied.
fn bit_if(cells: &[u64], x: u64, y: u64, diagonal: u64, corner: Corner) -> u8
    ensures { (AscL 0 cells.now → result ≡ bit_if cells.now x y diagonal (weight (dir corner))) × (result ≤ weight (dir corner)) }
{
    if contains(cells, x) || contains(cells, y) || contains(cells, diagonal) {
        return 0;
    }
    corner.bit()
}

// The status of the cell k, whose neighbours are keys too.
pub(crate) fn status_of(cells: &[u64], k: u64) -> u8
    ensures { AscL 0 cells.now → W + 1 ≤ k → k + (W + 1) < 2 ^ 64 → result ≡ number (status_of cells.now k) }
{
    if k < DIAGONAL || OUTERMOST <= k || !contains(cells, k) {
        return 0;
    }
    // Four calls and no loop over steps: some steps go down, and a key has no sign.
    let sw = bit_if(cells, k - COLUMN, k - 1, k - DIAGONAL, Corner::Southwest);
    let se = bit_if(cells, k + COLUMN, k - 1, k + COLUMN - 1, Corner::Southeast);
    let nw = bit_if(cells, k - COLUMN, k + 1, k + 1 - COLUMN, Corner::Northwest);
    let ne = bit_if(cells, k + COLUMN, k + 1, k + DIAGONAL, Corner::Northeast);
    sw + se + nw + ne
}
