// Batches of changes: an entry that a line gives, and what a batch did.
ghost use Rattle.std.specs.Prelude.{◌≡◌, replicate, pos, take};
ghost use Rattle.replay.specs.Entered.{entered, used_then};

use crate::lines::write_number;
use limits::cell::Cell;
use std::io;
use std::io::Write;

// The longest batch has 300 entries.
const NUMBERS: usize = 900;

// Puts an entry's three numbers after those that the batch has so far, where there is room. Returns how many it has then.
#[tactic(auto, unfolding(crate::specs::Entered::entered, crate::specs::Entered::used_then))]
pub fn enter(batch: &mut [i64], used: usize, x: i64, y: i64, full: i64) -> usize
    ensures { (result ≡ used_then batch.old used) × (batch.new ≡ entered batch.old used x y full) }
{
    if batch.len() < 3 || batch.len() - 3 < used {
        return used;
    }
    batch[used] = x;
    batch[used + 1] = y;
    batch[used + 2] = full;
    used + 3
}

// A batch in the making: three numbers an entry, and how many there are so far.
#[derive(Clone, Copy)]
pub struct Batch {
    pub numbers: [i64; NUMBERS],
    pub used: usize,
}

impl Batch {
    pub fn new() -> Batch
        ensures { (result.used ≡ 0) × (result.numbers ≡ replicate 900 (pos 0)) }
    {
        Batch {
            numbers: [0; NUMBERS],
            used: 0,
        }
    }

    // One more entry, where there is room.
    pub fn enter(&mut self, x: i64, y: i64, full: i64)
        ensures { (self.new.used ≡ used_then self.old.numbers self.old.used) × (self.new.numbers ≡ entered self.old.numbers self.old.used x y full) }
    {
        self.used = enter(&mut self.numbers, self.used, x, y, full);
    }

    // The numbers so far.
    pub fn entries(&self) -> &[i64]
        ensures { result.now ≡ take self.now.used self.now.numbers }
    {
        &self.numbers[..self.used.min(NUMBERS)]
    }
}

// Writes the column and the row of a key, what is to come between them, and what is to follow.
pub fn write_cell<W: Write>(
    output: &mut W,
    key: u64,
    between: &[u8],
    end: &[u8],
) -> io::Result<()> {
    let cell = Cell::of_key(key);
    write_number(output, cell.x.cast_unsigned(), between)?;
    write_number(output, cell.y.cast_unsigned(), end)
}

// Writes the first `count` changes, each cell and its number on a line of their own; nothing where a list has fewer.
pub fn write_changes<W: Write>(
    output: &mut W,
    mark: &[u8],
    keys: &[u64],
    numbers: &[u8],
    count: usize,
) -> io::Result<()> {
    if keys.len().min(numbers.len()) < count {
        return Ok(());
    }
    for (key, number) in keys.iter().zip(numbers).take(count) {
        output.write_all(mark)?;
        write_cell(output, *key, b" ", b" ")?;
        write_number(output, *number as u64, b"\n")?;
    }
    Ok(())
}
