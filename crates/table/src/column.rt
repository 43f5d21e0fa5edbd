// A column of a table, and its rows, as stretches of the caller's table.
ghost use Rattle.std.specs.Prelude.{◌≡◌, ℕ, ◌*◌, ◌≤◌, length};
ghost use Rattle.model.specs.Cell.{W};
ghost use Rattle.model.specs.Maps.{AscL};
ghost use Rattle.table.specs.Columns.{InColumn, column_of, rows_from};
ghost use Rattle.table.specs.Tables.{rank};

use crate::place::place;
use sizes::COLUMN;

// The place of a key, looked for from the front: the stretch that is searched begins with one key and doubles.
fn place_from(t: &[u64], k: u64) -> usize
    ensures { (result ≤ length t.now) × (AscL 0 t.now → result ≡ rank k t.now) }
{
    let mut at = 0;
    let mut n = 0;
    while n < t.len() && t[n] < k {
        at = n + 1;
        n = 2 * n + 1;
    }
    if n < t.len() {
        return at + place(&t[at..n], k);
    }
    at + place(&t[at..], k)
}

// Where column x begins, or would begin: a walk from column to column finds it among the first keys.
fn begin(t: &[u64], x: u64) -> usize
    ensures { (result ≤ length t.now) × (AscL 0 t.now → result ≡ rank (x * W) t.now) }
{
    if x < COLUMN {
        return place_from(t, x * COLUMN);
    }
    t.len()
}

// The keys of column x.
pub fn column(t: &[u64], x: u64) -> &[u64]
    ensures { AscL 0 t.now → result.now ≡ column_of x t.now }
{
    if COLUMN <= x {
        return &t[..0];
    }
    let a = begin(t, x);
    let e = a + begin(&t[a..], x + 1);
    &t[a..e]
}

// The keys of a column from the first row on that is at least y.
pub fn rows_from(col: &[u64], y: u64) -> &[u64]
    ensures { (x : ℕ) → AscL 0 col.now → InColumn x col.now → result.now ≡ rows_from y col.now }
{
    if col.len() == 0 || COLUMN <= y {
        return &col[..0];
    }
    let at = place(col, col[0] / COLUMN * COLUMN + y);
    &col[at..]
}
