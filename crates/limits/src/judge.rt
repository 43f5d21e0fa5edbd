// What is refused before a batch is tried (RULES 4.1: refusals 1, 3, 4 and 5).
ghost use Rattle.std.specs.Prelude.{◌≡◌, ◌&&◌, ◌||◌};
ghost use Rattle.std.specs.Int.Signed.{le_z, lt_z};
ghost use Rattle.model.specs.Limits.{max_coordinate};
ghost use Rattle.model.specs.Refusal.{bad_size, off_map, outside, unsorted};
ghost use Rattle.limits.specs.Batches.{disorder, entries};
ghost use Rattle.limits.specs.Words.{looked, word_on};

use crate::dues::Due;
use crate::refusal::Refusal;
use sizes::{BATCH, LEAST_COORDINATE, MOST_COORDINATE};

// 1: the cell size.
pub fn bad_size(size: f64) -> bool
    ensures { result ≡ bad_size size }
{
    !(0.0009765625 <= size && size <= 65536.0)
}

// Whether the cell (ax, ay) comes before (bx, by): by x, then by y.
fn before(ax: i64, ay: i64, bx: i64, by: i64) -> bool
    ensures { result ≡ lt_z ax bx || (le_z ax bx && lt_z ay by) }
{
    ax < bx || ax <= bx && ay < by
}

// Whether a coordinate is beyond 1,048,576 either way.
fn off_map(z: i64) -> bool
    ensures { result ≡ off_map max_coordinate z }
{
    z < LEAST_COORDINATE || MOST_COORDINATE < z
}

// 4: whether some entry does not come after the one before it. An entry is three numbers, x, y, and 0 for free
// or any other number for occupied.
fn unsorted(batch: &[i64]) -> bool
    ensures { result ≡ unsorted (entries batch.now) }
{
    if batch.len() < 3 {
        return false;
    }
    for (a, b) in batch.chunks_exact(3).zip(batch[3..].chunks_exact(3)) {
        if !before(a[0], a[1], b[0], b[1]) {
            return true;
        }
    }
    false
}

// 5: whether some coordinate is beyond 1,048,576 either way.
fn outside(batch: &[i64]) -> bool
    ensures { result ≡ outside (entries batch.now) }
{
    for entry in batch.chunks_exact(3) {
        if off_map(entry[0]) || off_map(entry[1]) {
            return true;
        }
    }
    false
}

// 4: also a number or two at the end that are no entry: an entry that was handed over short is not passed over.
fn disorder(batch: &[i64]) -> bool
    ensures { result ≡ disorder batch.now }
{
    batch.len() % 3 != 0 || unsorted(batch)
}

// The others, and 3, or 4 and 5: the entries of a batch that is too long are not looked at.
pub fn batch_due(others: Due, batch: &[i64]) -> Due
    ensures { result.word ≡ word_on others.word (looked batch.now) }
{
    if BATCH < batch.len() / 3 {
        return others.and(Refusal::LongBatch, true);
    }
    others
        .and(Refusal::OffMap, outside(batch))
        .and(Refusal::Disorder, disorder(batch))
}
