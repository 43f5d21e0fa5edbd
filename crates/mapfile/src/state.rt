// How far a map file was read.
ghost use Rattle.std.specs.Prelude.{◌≡◌};
ghost use Rattle.mapfile.specs.Moves.{begun, moved_on};

use crate::head::Expected;
use held::map::Map;
use limits::refusal::Refusal;

// What is expected, the number of the field that is expected, and what was read: the cell size, and the map once it is open.
#[derive(Clone, Copy)]
pub struct Reader {
    pub expected: Expected,
    pub field: u64,
    pub size: f64,
    pub map: Map,
}

// The field was taken, with so many bytes, and the reading goes on; or the file has ended, and this is its map.
#[derive(Clone, Copy)]
pub enum Reading {
    More(Reader, usize),
    Done(Map),
}

// A file is refused, and at which field.
#[derive(Clone, Copy, Debug, PartialEq, Eq)]
pub struct FileRefusal {
    pub refusal: Refusal,
    pub field: u64,
}

// Before the first field.
pub fn begin() -> Reader
    ensures { result ≡ begun }
{
    Reader {
        expected: Expected::Size,
        field: 0,
        size: 0.0,
        map: Map::none(),
    }
}

impl Reader {
    // On to the next field. There are fewer fields than 2^64 in any file.
    pub(crate) fn onward(self, expected: Expected, size: f64, map: Map) -> Reader
        ensures { result ≡ moved_on self expected size map }
    {
        Reader {
            expected,
            field: self.field.wrapping_add(1),
            size,
            map,
        }
    }
}
