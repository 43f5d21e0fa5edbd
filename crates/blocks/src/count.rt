// The number of blocks: as many as there are cells, less one for each time that a cell joined two trees.
ghost use Rattle.std.specs.Prelude.{◌≡◌, ℕ, ◌+◌, ◌^◌, ◌<◌, ◌≤◌, get_or, length};
ghost use Rattle.std.specs.Int.{from_bool};
ghost use Rattle.model.specs.Cell.{W};
ghost use Rattle.model.specs.Limits.{max_cells};
ghost use Rattle.blocks.specs.Counted.{Counted};
ghost use Rattle.blocks.specs.Forest.{Sought};
ghost use Rattle.blocks.specs.Grown.{Met, Planted};

use crate::forest::Forest;
use sizes::{CELLS, COLUMN};
use table::place::{place, stands_at};

// The last row of a column, and the first key of the last column.
const LAST_ROW: u64 = COLUMN - 1;

const LAST_COLUMN: u64 = COLUMN * LAST_ROW;

// Cells of which a forest has a place for each.
#[derive(Clone, Copy)]
struct Cells<'a> {
    keys: &'a [u64],
    ghost few: { length keys.now ≤ max_cells },
    ghost words: { (k : ℕ) → get_or keys.now k 0 < 2 ^ 64 },
}

impl Cells<'_> {
    // Joins the tree of the cell `key` to that of place i, if it is at the place `at`, and says whether they were two.
    fn join_at(self, forest: &mut Forest, at: usize, key: u64, i: usize) -> bool
        requires { get_or forest.old.parents i 0 ≡ i }
        ensures { Sought self.entry.keys.now at key i (from_bool result) forest.old.parents forest.new.parents }
    {
        stands_at(self.keys, at, key) && forest.join(i, at)
    }

    // The same for the cell above that at place i, unless this is in the last row.
    fn join_above(self, forest: &mut Forest, i: usize) -> bool
        requires { (get_or forest.old.parents i 0 ≡ i) × (i < length self.keys.now) }
        ensures { Met self.entry.keys.now i (get_or self.entry.keys.now i 0 + 1) (from_bool result) forest.old.parents forest.new.parents }
    {
        let k = self.keys[i];
        if k % COLUMN == LAST_ROW {
            return false;
        }
        self.join_at(forest, i + 1, k + 1, i)
    }

    // The same for the cell to the right of that at place i, unless this is in the last column.
    fn join_right(self, forest: &mut Forest, i: usize) -> bool
        requires { (get_or forest.old.parents i 0 ≡ i) × (i < length self.keys.now) }
        ensures { Met self.entry.keys.now i (get_or self.entry.keys.now i 0 + W) (from_bool result) forest.old.parents forest.new.parents }
    {
        let k = self.keys[i];
        if LAST_COLUMN <= k {
            return false;
        }
        let at = i + 1 + place(&self.keys[i + 1..], k + COLUMN);
        self.join_at(forest, at, k + COLUMN, i)
    }

    // Plants the cell at place i, a tree of its own, and joins to it the trees of the cell above and of the one to the right. Both come
    // after it in the table. Returns how many trees were joined.
    fn plant(self, forest: &mut Forest, i: usize) -> usize
        requires { i < length self.keys.now }
        ensures { Planted self.entry.keys.now i result forest.old.parents forest.new.parents }
    {
        forest.parents[i] = i;
        let above = self.join_above(forest, i);
        let right = self.join_right(forest, i);
        above as usize + right as usize
    }
}

// The blocks of ascending cells. Of more than 1,024 none are counted, and the answer is 0, as it promises.
pub fn count_blocks(cells: &[u64]) -> usize
    ensures { Counted cells.now result }
{
    let n = cells.len();
    if CELLS < n {
        return 0;
    }
    let few = Cells { keys: cells };
    let mut forest = Forest {
        parents: [0; CELLS],
    };
    let mut joined = 0;
    for i in (0..n).rev() {
        joined += few.plant(&mut forest, i);
    }
    n.saturating_sub(joined)
}
