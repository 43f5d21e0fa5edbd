// The map that a reader gives. A file of any length is read through a buffer of fixed length, field by field.
ghost use Rattle.std.specs.Prelude.{◌≡◌, false};
ghost use Rattle.held.specs.Lent.{Same, lists_of};
ghost use Rattle.model.specs.Refusal.{short};
ghost use Rattle.intake.specs.Taken.{EndsWith, Taken, lent};

use held::map::Map;
use held::tables::Tables;
use limits::refusal::Refusal;
use mapfile::field::one_field;
use mapfile::state::{FileRefusal, Reading, begin};
use sizes::WINDOW;
use std::io::Read;
use window::input::{Window, refill};

// Why there is no map: the file is refused, or it could not be read to its end.
#[derive(Clone, Copy, Debug, PartialEq, Eq)]
pub enum InputError {
    Refused(FileRefusal),
    Unread,
}

impl From<FileRefusal> for InputError {
    ghost use Rattle.intake.specs.declared.input.InputError.{InputError};

    ghost from_gives = { λ r e. e ≡ InputError.Refused r };

    fn from(refusal: FileRefusal) -> InputError {
        InputError::Refused(refusal)
    }
}

// Reads all fields. A proved loop has to end, and nothing says that the input does: an input of 2^63 bytes or more is told as unread.
fn read_fields<R: Read>(
    input: &mut R,
    buffer: &mut [u8],
    tables: &mut Tables,
) -> Result<Map, InputError>
    requires { short (lent buffer.old (lists_of tables.old)) ≡ false }
    ensures said { EndsWith result (lists_of tables.old) (lists_of tables.new) }
    ensures same { Same tables.old tables.new }
{
    let mut reader = begin();
    let mut window = Window {
        from: 0,
        end: 0,
        ended: false,
        failed: false,
    };
    let mut room = 9223372036854775807 - buffer.len();
    loop {
        window = refill(input, buffer, window);
        if window.failed {
            return Err(InputError::Unread);
        }
        match one_field(reader, &buffer[window.from..window.end], tables)? {
            Reading::More(next, used) => {
                if room < used {
                    return Err(InputError::Unread);
                }
                room -= used;
                reader = next;
                window.from += used;
            }
            Reading::Done(map) => return Ok(map),
        }
    }
}

// Reads the map file that the reader gives, to its end, into the tables. The buffer has 2,307 bytes at least.
pub fn read_map<R: Read>(
    input: &mut R,
    buffer: &mut [u8],
    tables: &mut Tables,
) -> Result<Map, InputError>
    ensures said { Taken buffer.old buffer.new (lists_of tables.old) (lists_of tables.new) result }
    ensures same { Same tables.old tables.new }
{
    if buffer.len() < WINDOW || tables.is_short() {
        return Err(InputError::Refused(FileRefusal {
            refusal: Refusal::ShortTable,
            field: 0,
        }));
    }
    read_fields(input, buffer, tables)
}
