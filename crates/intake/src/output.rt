// The listing of the map file that a reader gives, written to a writer.
ghost use Rattle.intake.specs.Showed.{Showed};

use crate::listing::{ListError, list_input};
use std::io::{Read, Write};

// The input could not be read to its end, and nothing was written; or not all of the listing could be.
#[derive(Clone, Copy, Debug, PartialEq, Eq)]
pub enum ShowError {
    Unwritten,
    Unread,
}

impl From<ListError> for ShowError {
    ghost use Rattle.std.specs.Prelude.{◌≡◌};
    ghost use Rattle.intake.specs.Showed.{shown_as};

    ghost from_gives = { λ r e. e ≡ shown_as r };

    fn from(error: ListError) -> ShowError {
        match error {
            ListError::Refused(_) => ShowError::Unwritten,
            ListError::Unread => ShowError::Unread,
        }
    }
}

// Lists what the reader gives, and writes it to the writer. The buffers are those of `list_input`.
pub fn show_input<R: Read, W: Write>(
    from: &mut R,
    to: &mut W,
    buffer: &mut [u8],
    out: &mut [u8],
) -> Result<(), ShowError>
    ensures { Showed buffer.old buffer.new out.old out.new result }
{
    let n = list_input(from, buffer, out)?;
    let listing = out.get(..n).ok_or(ShowError::Unwritten)?;
    to.write_all(listing).map_err(|_| ShowError::Unwritten)
}
