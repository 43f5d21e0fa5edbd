// The first cell that a shape takes, by columns and rows. A column is a stretch of the table, and the rows asked for
// are a stretch that begins inside it. A square and a circle can look at one cell before they cut its column out of the
// table, a strip has to work out its rows first.
ghost use Rattle.std.specs.Prelude.{◌≡◌, ℕ, true, ◌+◌, ◌^◌, ◌≤◌, ◌<◌};
ghost use Rattle.model.specs.Cell.{col};
ghost use Rattle.shape.specs.Bounds.{in_bounds};
ghost use Rattle.shape.specs.declared.bounds.Bounds.{Bounds};
ghost use Rattle.question.specs.Walk.{First, FirstIn, Left, Shape, column_taken, flat, round, row_taken, rows_at, swept, taken};

use crate::search::Found;
use shape::bounds::Bounds;
use shape::circle::Circle;
use shape::sweep::Strip;
use sizes::COLUMN;
use table::column::{column, rows_from};
use table::place::place;

// ---- one column

// Whether y is one of these rows.
fn in_rows(y: u64, rows: Bounds) -> bool
    ensures { result ≡ in_bounds rows y }
{
    rows.low <= y && y < rows.high
}

// The first of the cells from a row on, if it lies below the row `high`.
fn lowest(rows: &[u64], high: u64) -> Found
    ensures { (x : ℕ) (b : Bounds) → FirstIn x (row_taken high (flat b)) rows.now result }
{
    match rows {
        [] => Found::nothing(),
        [k, ..] => Found::only(*k % COLUMN < high, *k),
    }
}

// The first of the cells from a row on that lies below the row `high` and that the circle meets.
fn first_met(rows: &[u64], high: u64, circle: Circle) -> Found
    ensures { (x : ℕ) (b : Bounds) → FirstIn x (row_taken high (round b circle)) rows.now result }
{
    for &k in rows {
        if high <= k % COLUMN {
            return Found::nothing();
        }
        if circle.meets(k) {
            return Found { some: true, key: k };
        }
    }
    Found::nothing()
}

// What a shape takes, column by column.
pub(crate) trait Taking: Copy {
    ghost shape: { Self → Shape };

    // No row below this one is taken.
    fn low(self) -> u64
        ensures { (x : ℕ) → result ≤ (rows_at (shape self) x).low };

    // Whether a look at one cell tells that it is taken: false where that takes more.
    fn takes(self, k: u64) -> bool
        ensures { result ≡ true → column_taken (shape self) (col k) k ≡ true };

    // The first of a column's cells that is taken.
    fn first_in(self, col: &[u64], x: u64) -> Found
        ensures { FirstIn x (column_taken (shape self) x) col.now result };
}

// The same rows in every column.
#[derive(Clone, Copy)]
pub(crate) struct Flat {
    pub(crate) rows: Bounds,
}

// The cells that a circle meets, of the same rows in every column.
#[derive(Clone, Copy)]
pub(crate) struct Round {
    pub(crate) rows: Bounds,
    pub(crate) circle: Circle,
}

// In each column the rows of a swept strip.
#[derive(Clone, Copy)]
pub(crate) struct Swept {
    pub(crate) strip: Strip,
    pub(crate) size: f64,
}

impl Taking for Flat {
    ghost shape = { λ s. flat s.rows };

    fn low(self) -> u64 {
        self.rows.low
    }

    fn takes(self, k: u64) -> bool {
        in_rows(k % COLUMN, self.rows)
    }

    fn first_in(self, col: &[u64], _x: u64) -> Found {
        lowest(rows_from(col, self.rows.low), self.rows.high)
    }
}

impl Taking for Round {
    ghost shape = { λ s. round s.rows s.circle };

    fn low(self) -> u64 {
        self.rows.low
    }

    fn takes(self, k: u64) -> bool {
        in_rows(k % COLUMN, self.rows) && self.circle.meets(k)
    }

    fn first_in(self, col: &[u64], _x: u64) -> Found {
        first_met(rows_from(col, self.rows.low), self.rows.high, self.circle)
    }
}

impl Taking for Swept {
    ghost shape = { λ s. swept s.strip s.size };

    fn low(self) -> u64 {
        0
    }

    fn takes(self, _k: u64) -> bool {
        false
    }

    fn first_in(self, col: &[u64], x: u64) -> Found {
        let rows = self.strip.rows(self.size, x);
        Flat { rows }.first_in(col, x)
    }
}

// ---- all columns

// Where a walk begins: at the first cell from a row of the first column on, or at the end, where no cell has so high a
// column or row.
fn begin(cells: &[u64], columns: Bounds, row: u64) -> usize
    ensures { (s : Shape) → ((x : ℕ) → row ≤ (rows_at s x).low) → Left columns s cells.now result }
{
    if COLUMN <= columns.low || COLUMN <= row {
        return cells.len();
    }
    place(cells, columns.low * COLUMN + row)
}

// Where a walk goes on: past the n cells of a column. Of a table that does not ascend there may be none: then at the next cell.
fn after(i: usize, n: usize) -> usize
    requires { (i < 2 ^ 63) × (n < 2 ^ 63) }
    ensures { (i < result) × (0 < n → result ≡ i + n) }
{
    i + n.max(1)
}

// The first cell of these columns that is taken. The first cell from the first row of the first column on is often the one.
pub(crate) fn first_taken<S: Taking>(cells: &[u64], columns: Bounds, shape: S) -> Found
    ensures { First (taken columns (S.shape shape)) cells.now result }
{
    let mut i = begin(cells, columns, shape.low());
    // A `while`: it goes from column to column.
    while i < cells.len() {
        let k = cells[i];
        let x = k / COLUMN;
        if columns.high <= x {
            return Found::nothing();
        }
        if shape.takes(k) {
            return Found { some: true, key: k };
        }
        let col = column(&cells[i..], x);
        let here = shape.first_in(col, x);
        if here.some {
            return here;
        }
        i = after(i, col.len());
    }
    Found::nothing()
}
