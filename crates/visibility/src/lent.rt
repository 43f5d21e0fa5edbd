// A layer's tables without the cells under them.
ghost use Rattle.std.specs.Prelude.{◌≡◌};
ghost use Rattle.model.specs.Refusal.{short};
ghost use Rattle.held.specs.Holds.{needs};
ghost use Rattle.visibility.specs.Lent.{over};

use held::tables::View;

// The four tables of a layer, lent to be changed: the points with their statuses and blockers, and the pairs. It is no `Tables`, since C lends
// the cells of a change of the radius to be read.
#[derive(Drop)]
pub struct Layer<'a> {
    pub points: &'a mut [u64],
    pub statuses: &'a mut [u8],
    pub blockers: &'a mut [u64],
    pub pairs: &'a mut [u64],
}

impl Layer<'_> {
    // 9: whether one of them, or of the cells under them, is short of its need.
    pub(crate) fn is_short(&self, cells: &[u64]) -> bool
        ensures { result ≡ short (needs (over cells.now self.now)) }
    {
        View {
            cells,
            points: self.points,
            statuses: self.statuses,
            blockers: self.blockers,
            pairs: self.pairs,
        }
        .is_short()
    }
}
