// Cells and blockers, from their keys.
ghost use Rattle.std.specs.Prelude.{◌+◌, ◌≤◌, ◌<◌, length, [], ◌∷◌, ◌++◌};
ghost use Rattle.ieee.specs.Whole.{unbias};
ghost use Rattle.model.specs.Cell.{W, x_of, y_of};
ghost use Rattle.model.specs.Listing.{blocker_text, signed};
ghost use Rattle.print.specs.Printed.{block_of};
ghost use Rattle.print.specs.Printers.{Wrote};

use crate::printer::Printer;
use sizes::COLUMN;

// Column 0 and row 0 as keys hold them.
const ORIGIN: u64 = COLUMN / 2;

impl Printer<'_> {
    // A column or a row as keys hold it, ORIGIN more than it is.
    fn coordinate(&mut self, biased: u64)
        requires { (biased < W) × (self.old.at + 11 ≤ length self.old.out.now) }
        ensures { Wrote (signed (unbias biased)) 11 self.old self.new }
    {
        if biased < ORIGIN {
            self.byte(b'-');
            self.number(ORIGIN - biased);
        } else {
            self.number(biased - ORIGIN);
        }
    }

    // x and y, and what is to be written between them.
    pub fn cell(&mut self, key: u64, between: u8)
        requires { self.old.at + 23 ≤ length self.old.out.now }
        ensures { Wrote (signed (x_of key) ++ (between ∷ []) ++ signed (y_of key)) 23 self.old self.new }
    {
        self.coordinate(key / COLUMN);
        self.byte(between);
        self.coordinate(key % COLUMN);
    }

    // `x,y`, or `-` where there is none: a blocker's number is that of C's tables, 0 for none.
    pub fn blocker(&mut self, code: u64)
        requires { self.old.at + 23 ≤ length self.old.out.now }
        ensures { Wrote (blocker_text (block_of code)) 23 self.old self.new }
    {
        if code == 0 {
            self.byte(b'-');
        } else {
            self.cell(code, b',');
        }
    }
}
