// The float tests of a cell size and a radius, between centres, with what they find as a number: a key, or 0. It is a number since the
// tables of C hold blockers so.
ghost use Rattle.model.specs.Map.{tests};
ghost use Rattle.looks.specs.Tested.{Tells};

use plane::cell::centre;
use question::search::{Question, search};

// What is looked over: the occupied cells, with the cell size and the radius.
#[derive(Clone, Copy)]
pub struct Ground<'a> {
    pub size: f64,
    pub radius: f64,
    pub cells: &'a [u64],
}

impl Ground<'_> {
    // The square of width 2r at the centre of k.
    pub fn square_at(self, k: u64) -> u64
        ensures { Tells self.entry.cells.now ((tests self.entry.size self.entry.radius).square self.entry.cells.now k) result }
    {
        let square = Question::Square(centre(k, self.size), 2.0 * self.radius);
        search(self.size, self.cells, square).key
    }

    // The sweep of width 2r from the centre of p to that of q.
    pub fn sweep_between(self, p: u64, q: u64) -> u64
        ensures { Tells self.entry.cells.now ((tests self.entry.size self.entry.radius).sweep self.entry.cells.now p q) result }
    {
        let start = centre(p, self.size);
        let end = centre(q, self.size);
        let sweep = Question::Sweep(start, end, 2.0 * self.radius);
        search(self.size, self.cells, sweep).key
    }
}
