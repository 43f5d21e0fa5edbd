// A whole map file.
ghost use Rattle.std.specs.Prelude.{◌≡◌, false};
ghost use Rattle.model.specs.MapFile.{read_file};
ghost use Rattle.model.specs.Refusal.{short};
ghost use Rattle.held.specs.Holds.{Behind, needs};
ghost use Rattle.held.specs.Lent.{Same, lists_of};
ghost use Rattle.mapfile.specs.Feeds.{EndsAs};
ghost use Rattle.mapfile.specs.Files.{FileRead};
ghost use Rattle.mapfile.specs.Told.{opened_told};

use crate::field::one_field;
use crate::state::{FileRefusal, Reading, begin};
use held::map::Map;
use held::tables::Tables;
use limits::refusal::Refusal;
use sizes::{CELLS, PAIRS, POINTS};
use table::copy::copy;

// As C has it: 0, 0 and the map; or the refusal's number, the field's, and a map that is all zero.
#[repr(C)]
#[derive(Clone, Copy)]
pub struct Opened {
    pub refusal: u8,
    pub field: u64,
    pub map: Map,
}

impl From<Result<Map, FileRefusal>> for Opened {
    ghost from_gives = { λ r o. o ≡ opened_told r };

    fn from(answer: Result<Map, FileRefusal>) -> Opened {
        match answer {
            Ok(map) => Opened {
                refusal: 0,
                field: 0,
                map,
            },
            Err(FileRefusal { refusal, field }) => Opened {
                refusal: refusal.number(),
                field,
                map: Map::none(),
            },
        }
    }
}

// Reads to the end, field by field. A file that is refused leaves the tables as the fields before had them.
fn read_fields(bytes: &[u8], tables: &mut Tables) -> Result<Map, FileRefusal>
    requires { short (needs (lists_of tables.old)) ≡ false }
    ensures said { EndsAs result (lists_of tables.new) (read_file bytes.now) }
    ensures behind { Behind (lists_of tables.old) (lists_of tables.new) }
    ensures same { Same tables.old tables.new }
{
    let mut reader = begin();
    let mut rest = bytes;
    // No `for`: each field tells how far the next one is.
    loop {
        match one_field(reader, rest, tables)? {
            Reading::More(next, used) => {
                reader = next;
                rest = &rest[used..];
            }
            Reading::Done(map) => return Ok(map),
        }
    }
}

// Reads a map file into the tables; where it is refused, they are left as they were. It is read into tables of the call's own first.
pub fn read_file(bytes: &[u8], tables: &mut Tables) -> Result<Map, FileRefusal>
    ensures said { FileRead bytes.now (lists_of tables.old) (lists_of tables.new) (opened_told result) }
    ensures same { Same tables.old tables.new }
{
    if tables.is_short() {
        return Err(FileRefusal {
            refusal: Refusal::ShortTable,
            field: 0,
        });
    }
    // Written out here, in `report` and in `intake`: no function can lend what it owns itself, and there is no heap.
    let mut own = Tables {
        cells: &mut [0; CELLS],
        points: &mut [0; POINTS],
        statuses: &mut [0; POINTS],
        blockers: &mut [0; POINTS],
        pairs: &mut [0; PAIRS],
    };
    let map = read_fields(bytes, &mut own)?;
    copy(own.cells, tables.cells);
    copy(own.points, tables.points);
    copy(own.statuses, tables.statuses);
    copy(own.blockers, tables.blockers);
    copy(own.pairs, tables.pairs);
    Ok(map)
}
