// The first line of a listing: `cells .. corners .. points .. edges .. open .. blocks ..`.
ghost use Rattle.std.specs.Prelude.{leb, length};
ghost use Rattle.model.specs.Listing.{counts_line};
ghost use Rattle.print.specs.Printed.{Printed};
ghost use Rattle.model.specs.Limits.{first_room};

use crate::printer::Printer;
use sizes::FIRST_LINE;

#[derive(Clone, Copy)]
pub struct Counts {
    pub cells: u64,
    pub corners: u64,
    pub points: u64,
    pub edges: u64,
    pub open: u64,
    pub blocks: u64,
}

// Returns how many bytes the line has. Nothing is written where there is not room for 256, and then it is 0, as it promises.
pub fn put_counts(out: &mut [u8], counts: Counts) -> usize
    ensures { Printed (leb first_room (length out.old)) first_room
        (counts_line counts.cells counts.corners counts.points counts.edges counts.open counts.blocks)
        0 result out.old out.new }
{
    if out.len() < FIRST_LINE {
        return 0;
    }
    let mut printer = Printer { out, at: 0 };
    printer.labelled(b"cells ", counts.cells);
    printer.labelled(b" corners ", counts.corners);
    printer.labelled(b" points ", counts.points);
    printer.labelled(b" edges ", counts.edges);
    printer.labelled(b" open ", counts.open);
    printer.labelled(b" blocks ", counts.blocks);
    printer.byte(b'\n');
    printer.at
}
