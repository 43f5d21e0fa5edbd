// The listing of the map file that a reader gives.
ghost use Rattle.intake.specs.Shown.{ShownInput};

use crate::input::{InputError, read_map};
use held::tables::Tables;
use limits::lent::is_short;
use limits::refusal::Refusal;
use mapfile::state::FileRefusal;
use print::refusal::put_refusal;
use report::map::list_map;
use sizes::{CELLS, LISTING, PAIRS, POINTS, WINDOW};
use std::io::Read;

// Why nothing is listed: the refusal 9 of a buffer that is short, or an input that could not be read to its end.
#[derive(Clone, Copy, Debug, PartialEq, Eq)]
pub enum ListError {
    Refused(Refusal),
    Unread,
}

impl From<Refusal> for ListError {
    ghost use Rattle.std.specs.Prelude.{◌≡◌};
    ghost use Rattle.intake.specs.declared.listing.ListError.{ListError};

    ghost from_gives = { λ r e. e ≡ ListError.Refused r };

    fn from(refusal: Refusal) -> ListError {
        ListError::Refused(refusal)
    }
}

// Writes the listing of the map file that the reader gives to `out`, and returns the count of its bytes. It is read through
// `buffer`, of 2,307 bytes at least.
pub fn list_input<R: Read>(
    input: &mut R,
    buffer: &mut [u8],
    out: &mut [u8],
) -> Result<usize, ListError>
    ensures { ShownInput buffer.old buffer.new out.old out.new result }
{
    if is_short(&[(buffer.len(), WINDOW), (out.len(), LISTING)]) {
        return Err(ListError::Refused(Refusal::ShortTable));
    }
    // Written out, as in `mapfile`: there is no heap.
    let mut tables = Tables {
        cells: &mut [0; CELLS],
        points: &mut [0; POINTS],
        statuses: &mut [0; POINTS],
        blockers: &mut [0; POINTS],
        pairs: &mut [0; PAIRS],
    };
    match read_map(input, buffer, &mut tables) {
        Ok(map) => Ok(list_map(map, tables.view(), out)?),
        Err(InputError::Refused(FileRefusal { refusal, field })) => {
            Ok(put_refusal(out, refusal.number(), field))
        }
        Err(InputError::Unread) => Err(ListError::Unread),
    }
}
