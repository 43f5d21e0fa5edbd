// The five tables that hold a map's cells, points and pairs: a caller lends them.
ghost use Rattle.std.specs.Prelude.{◌≡◌};
ghost use Rattle.model.specs.Refusal.{short};
ghost use Rattle.held.specs.Holds.{needs};
ghost use Rattle.held.specs.Lent.{lists_of, viewed};

use sizes::{CELLS, PAIRS, POINTS};

// Lent to be changed.
#[derive(Drop)]
pub struct Tables<'a> {
    pub cells: &'a mut [u64],
    pub points: &'a mut [u64],
    pub statuses: &'a mut [u8],
    pub blockers: &'a mut [u64],
    pub pairs: &'a mut [u64],
}

// Lent to be read: the same five, since C lends them to such calls as they may not be written.
#[derive(Clone, Copy)]
pub struct View<'a> {
    pub cells: &'a [u64],
    pub points: &'a [u64],
    pub statuses: &'a [u8],
    pub blockers: &'a [u64],
    pub pairs: &'a [u64],
}

impl View<'_> {
    // 9: whether one of the tables is short of its need.
    pub fn is_short(self) -> bool
        ensures { result ≡ short (needs (viewed self.entry)) }
    {
        limits::lent::is_short(&[
            (self.cells.len(), CELLS),
            (self.points.len(), POINTS),
            (self.statuses.len(), POINTS),
            (self.blockers.len(), POINTS),
            (self.pairs.len(), PAIRS),
        ])
    }
}

impl Tables<'_> {
    // The same tables, to be read.
    pub fn view(&self) -> View<'_>
        ensures { viewed result ≡ lists_of self.now }
    {
        View {
            cells: self.cells,
            points: self.points,
            statuses: self.statuses,
            blockers: self.blockers,
            pairs: self.pairs,
        }
    }

    // 9: whether one of the tables is short of its need.
    pub fn is_short(&self) -> bool
        ensures { result ≡ short (needs (lists_of self.now)) }
    {
        self.view().is_short()
    }
}
