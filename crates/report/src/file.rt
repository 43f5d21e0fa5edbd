// The listing of a map file.
ghost use Rattle.answers.specs.Told.{counted};
ghost use Rattle.report.specs.Filed.{Listed};

use crate::map::list_map;
use held::tables::Tables;
use limits::refusal::Refusal;
use mapfile::file::read_file;
use mapfile::state::FileRefusal;
use print::refusal::put_refusal;
use sizes::{CELLS, LISTING, PAIRS, POINTS};

// Writes what the program prints for the bytes of a map file. The count that is returned is that of the listing's bytes.
pub fn list_file(bytes: &[u8], out: &mut [u8]) -> Result<usize, Refusal>
    ensures { Listed bytes.now out.old out.new (counted result) }
{
    if out.len() < LISTING {
        return Err(Refusal::ShortTable);
    }
    // Written out, as in `mapfile`: there is no heap.
    let mut tables = Tables {
        cells: &mut [0; CELLS],
        points: &mut [0; POINTS],
        statuses: &mut [0; POINTS],
        blockers: &mut [0; POINTS],
        pairs: &mut [0; PAIRS],
    };
    match read_file(bytes, &mut tables) {
        Ok(map) => list_map(map, tables.view(), out),
        Err(FileRefusal { refusal, field }) => Ok(put_refusal(out, refusal.number(), field)),
    }
}
