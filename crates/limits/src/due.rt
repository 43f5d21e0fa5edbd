// The refusals that are due, by their numbers, as a word: bit n for the number n. By their names: `Due`.
ghost use Rattle.std.specs.Prelude.{◌≡◌, cond, ◌%◌, ◌^◌};
ghost use Rattle.std.specs.Int.Bits.{bit_or};
ghost use Rattle.model.specs.Refusal.{order};
ghost use Rattle.limits.specs.Words.{first_on};

use crate::dues::Due;

// The others, and this number where `is` says so.
pub fn due(others: u64, number: u8, is: bool) -> u64
    ensures { result ≡ bit_or others (cond is (2 ^ (number % 64)) 0) }
{
    if is {
        return others | 1 << (number % 64);
    }
    others
}

// The first in the order, or 0 where none is due.
pub fn first_due(word: u64) -> u8
    ensures { result ≡ first_on order word }
{
    match (Due { word }).first() {
        Ok(()) => 0,
        Err(refusal) => refusal.number(),
    }
}
