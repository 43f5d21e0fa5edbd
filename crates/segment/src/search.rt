// `SearchF64`: the least, or the greatest, of what was checked.
ghost use Rattle.std.specs.Prelude.{◌≡◌};
ghost use Rattle.std.proofs.Math.Option.{none};
ghost use Rattle.model.specs.Segment.{check_min, check_max};
ghost use Rattle.segment.specs.Search.{held, kept};

use ieee::pick::{max, min};

#[derive(Clone, Copy)]
pub struct SearchF64 {
    pub value: Option<f64>,
}

impl SearchF64 {
    pub fn new() -> Self
        ensures { result ≡ kept none }
    {
        SearchF64 { value: None }
    }

    // What `check_min` stores. Two functions for the least and the greatest, as in the Rust: each is one line.
    // (`check_min` and `check_max` are these in place.)
    pub fn least(self, other: f64) -> Self
        ensures { result ≡ kept (check_min (held self) other) }
    {
        SearchF64 {
            value: Some(self.value.map_or(other, |v| min(v, other))),
        }
    }

    // What `check_max` stores.
    pub fn greatest(self, other: f64) -> Self
        ensures { result ≡ kept (check_max (held self) other) }
    {
        SearchF64 {
            value: Some(self.value.map_or(other, |v| max(v, other))),
        }
    }

    // Lent and updated in place, as in the Rust.
    pub fn check_min(&mut self, other: f64)
        ensures { self.new ≡ kept (check_min (held self.old) other) }
    {
        *self = self.least(other);
    }

    pub fn check_max(&mut self, other: f64)
        ensures { self.new ≡ kept (check_max (held self.old) other) }
    {
        *self = self.greatest(other);
    }
}
