// The tables of a map, and how they are lent.
use held::tables::{Tables, View};
use sizes::{CELLS, PAIRS, POINTS};

#[derive(Drop)]
pub(crate) struct Store {
    pub cells: [u64; CELLS],
    pub points: [u64; POINTS],
    pub statuses: [u8; POINTS],
    pub blockers: [u64; POINTS],
    pub pairs: [u64; PAIRS],
}

impl Store {
    pub(crate) fn new() -> Store {
        Store {
            cells: [0; CELLS],
            points: [0; POINTS],
            statuses: [0; POINTS],
            blockers: [0; POINTS],
            pairs: [0; PAIRS],
        }
    }

    pub(crate) fn lend(&mut self) -> Tables<'_> {
        let Store {
            cells,
            points,
            statuses,
            blockers,
            pairs,
        } = self;
        Tables {
            cells,
            points,
            statuses,
            blockers,
            pairs,
        }
    }

    pub(crate) fn view(&self) -> View<'_> {
        View {
            cells: &self.cells,
            points: &self.points,
            statuses: &self.statuses,
            blockers: &self.blockers,
            pairs: &self.pairs,
        }
    }
}
