// The refusals that are due, and the one order in which they are answered.
ghost use Rattle.std.specs.Prelude.{◌≡◌, cond, ◌^◌};
ghost use Rattle.std.specs.Int.Bits.{bit_or};
ghost use Rattle.model.specs.Refusal.{order};
ghost use Rattle.limits.specs.Refusals.{code, number};
ghost use Rattle.limits.specs.Words.{first_on};

use crate::due::due;
use crate::refusal::Refusal;

const ORDER: [Refusal; 9] = [
    Refusal::ShortTable,
    Refusal::CellSize,
    Refusal::Radius,
    Refusal::LongBatch,
    Refusal::Disorder,
    Refusal::OffMap,
    Refusal::ManyCells,
    Refusal::ManyPoints,
    Refusal::BadQuestion,
];

// A set of refusals as a word: bit n for the number n.
#[derive(Clone, Copy)]
pub struct Due {
    pub word: u64,
}

impl Due {
    // No refusal is due.
    pub fn none() -> Due
        ensures { result.word ≡ 0 }
    {
        Due { word: 0 }
    }

    // The others, and this refusal where `is` says so.
    pub fn and(self, refusal: Refusal, is: bool) -> Due
        ensures { result.word ≡ bit_or self.word (cond is (2 ^ number refusal) 0) }
    {
        Due {
            word: due(self.word, refusal.number(), is),
        }
    }

    fn first_of(self) -> Result<(), Refusal>
        ensures { code result ≡ first_on order self.word }
    {
        for refusal in ORDER {
            if (self.word >> refusal.number()) % 2 == 1 {
                return Err(refusal);
            }
        }
        Ok(())
    }

    // The first in the order is the answer. A call that is not refused does not come to the loop.
    pub fn first(self) -> Result<(), Refusal>
        ensures { code result ≡ first_on order self.word }
    {
        if self.word == 0 {
            return Ok(());
        }
        self.first_of()
    }
}
