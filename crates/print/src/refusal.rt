// The line of a refused map file: `refused N at F`.
ghost use Rattle.std.specs.Prelude.{leb, length};
ghost use Rattle.model.specs.Listing.{refused_line};
ghost use Rattle.print.specs.Printed.{Printed};
ghost use Rattle.model.specs.Limits.{line_room};

use crate::printer::Printer;
use sizes::LINE;

// Returns how many bytes the line has. Nothing is written where there is not room for 80, and then it is 0, as it promises, and it
// promises this of any number, not only of a refusal's.
pub fn put_refusal(out: &mut [u8], number: u8, field: u64) -> usize
    ensures { Printed (leb line_room (length out.old)) line_room (refused_line number field) 0 result out.old out.new }
{
    if out.len() < LINE {
        return 0;
    }
    let mut printer = Printer { out, at: 0 };
    printer.labelled(b"refused ", number as u64);
    printer.labelled(b" at ", field);
    printer.byte(b'\n');
    printer.at
}
