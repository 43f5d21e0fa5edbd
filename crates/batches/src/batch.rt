// A batch on the occupied cells: how many there are afterwards, what is confirmed, and the change itself. Nothing is
// asked of a table or a batch; what is promised is promised of an ascending table and of a batch that is not
// refused.
ghost use Rattle.std.specs.Prelude.{◌≡◌, false, ◌<◌, ◌≤◌, pos, length, take, get_or};
ghost use Rattle.model.specs.Batch.{Batch, cells_after, confirmed};
ghost use Rattle.model.specs.Cell.{key};
ghost use Rattle.model.specs.Map.{to_batch};
ghost use Rattle.model.specs.Maps.{Asc, AscL, has, keys};
ghost use Rattle.model.specs.Refusal.{outside, unsorted};
ghost use Rattle.table.specs.Listed.{Listed, Unlisted, values};
ghost use Rattle.table.specs.Tables.{Table, pad};
ghost use Rattle.limits.specs.Batches.{Written, alters, entries, flags, is_full};

use crate::lists::Changes;
use limits::cell::Cell;
use table::change::{insert, remove};
use table::place::contains;

// An entry of a batch: its key, and whether it says occupied.
fn entry(numbers: &[i64]) -> (u64, bool)
    requires { length numbers.now ≡ 3 }
    ensures { (result.0 ≡ key (get_or numbers.now 0 (pos 0)) (get_or numbers.now 1 (pos 0)))
        × (result.1 ≡ is_full (get_or numbers.now 2 (pos 0))) }
{
    let cell = Cell {
        x: numbers[0],
        y: numbers[1],
    };
    (cell.key(), numbers[2] != 0)
}

// Whether an entry alters occupancy.
fn alters(cells: &[u64], k: u64, full: bool) -> bool
    ensures { AscL 0 cells.now → result ≡ alters (has k cells.now) full }
{
    contains(cells, k) != full
}

// How many cells are occupied after the batch. Its keys ascend, so that no entry sees what another one did.
pub fn count_after(cells: &[u64], batch: &[i64]) -> usize
    ensures { AscL 0 cells.now → unsorted (entries batch.now) ≡ false → outside (entries batch.now) ≡ false
        → result ≡ length (cells_after (to_batch (entries batch.now)) cells.now) }
{
    let mut more = cells.len();
    let mut less = 0;
    for numbers in batch.chunks_exact(3) {
        let (k, full) = entry(numbers);
        if alters(cells, k, full) {
            if full {
                more += 1;
            } else {
                less += 1;
            }
        }
    }
    more.saturating_sub(less)
}

// Lists the confirmed changes, each with 1 for occupied or 0 for free, and returns how many there are. Nothing is
// written where there is no room for as many as the batch has entries.
// Without room the answer is 0: it may not change what it promises.
// Cells and flags are two lists, and not one of pairs: C lends them so.
pub fn confirm(cells: &[u64], batch: &[i64], out: &mut [u64], full: &mut [u8]) -> usize
    ensures { (AscL 0 cells.now → unsorted (entries batch.now) ≡ false → outside (entries batch.now) ≡ false
        → length (entries batch.now) ≤ length out.old → length (entries batch.now) ≤ length full.old
        → Listed (flags (confirmed (to_batch (entries batch.now)) cells.now))
        out.old out.new full.old full.new result)
        × (length out.old < length (entries batch.now)
        → Unlisted out.old out.new full.old full.new result)
        × (length full.old < length (entries batch.now)
        → Unlisted out.old out.new full.old full.new result)
        × (result ≤ length (entries batch.now)) }
{
    if out.len() < batch.len() / 3 || full.len() < batch.len() / 3 {
        return 0;
    }
    let mut n = 0;
    for numbers in batch.chunks_exact(3) {
        let (k, on) = entry(numbers);
        if alters(cells, k, on) {
            out[n] = k;
            full[n] = u8::from(on);
            n += 1;
        }
    }
    n
}

// Puts the listed cells that are to be occupied among the first n, or takes those that are to be free out of them.
// A bool and no closure: it is also what the list is searched for.
fn write(cells: &mut [u64], n: usize, changes: Changes, on: bool) -> usize
    ensures { Written on changes.entry.cells.now changes.entry.full.now cells.old n cells.new result }
{
    let mut used = n;
    for (&k, &full) in changes.cells.iter().zip(changes.full) {
        if (full != 0) == on {
            used = if on {
                insert(cells, used, k)
            } else {
                remove(cells, used, k)
            };
        }
    }
    used
}

// Changes the first n cells as listed, and returns how many there are then. Cells are taken out before others are put in, so
// that there is never less room than at the end.
pub fn commit(cells: &mut [u64], n: usize, changes: Changes) -> usize
    ensures { (b : Batch) → changes.entry.cells.now ≡ keys b → changes.entry.full.now ≡ values (flags b) → Asc 0 b → Table cells.old n
        → length (cells_after b (take n cells.old)) ≤ length cells.old
        → (cells.new ≡ pad (length cells.old) (cells_after b (take n cells.old)))
        × (result ≡ length (cells_after b (take n cells.old))) }
{
    if changes.full.len() < changes.cells.len() {
        return n;
    }
    let used = write(cells, n, changes, false);
    write(cells, used, changes, true)
}
