// A forest over the places of a table: each place leads to a lesser one of its tree, or to itself, and is the root then.
ghost use Rattle.std.specs.Prelude.{◌≡◌, ◌<◌, get_or, length};
ghost use Rattle.std.specs.Int.{from_bool};
ghost use Rattle.model.specs.Limits.{max_cells};
ghost use Rattle.blocks.specs.Forest.{Down, Joined, SameRoots, Root};

use sizes::CELLS;

// It has room for a place for each cell of a map.
#[derive(Drop)]
pub(crate) struct Forest {
    pub(crate) parents: [usize; CELLS],
    ghost full: { length parents ≡ max_cells },
    ghost down: { Down parents },
}

impl Forest {
    // The root of a place. Each place on the way is led on by two steps, so that the ways stay short.
    fn root_of(&mut self, at: usize) -> usize
        requires { at < max_cells }
        ensures { Root self.old.parents at result × SameRoots self.old.parents self.new.parents }
    {
        let mut i = at;
        let mut up = self.parents[i];
        while up != i {
            let far = self.parents[up];
            self.parents[i] = far;
            i = far;
            up = self.parents[i];
        }
        i
    }

    // Joins the tree of `at` to that of the root `to`, and says whether they were two. That no tree's root comes before `to` need not be
    // known: `<=` keeps every way downwards without it.
    pub(crate) fn join(&mut self, to: usize, at: usize) -> bool
        requires { (get_or self.old.parents to 0 ≡ to) × (at < max_cells) }
        ensures { Joined to at (from_bool result) self.old.parents self.new.parents }
    {
        let root = self.root_of(at);
        if root <= to {
            return false;
        }
        self.parents[root] = to;
        true
    }
}
