// Map files and listings under C names. Each function is the call that it makes, with its contract, and its
// answer as C has it.
#![tactic(auto)]

ghost use Rattle.held.specs.Holds.{tables_of};
ghost use Rattle.mapfile.specs.Files.{FileRead};
ghost use Rattle.report.specs.Filed.{Listed};
ghost use Rattle.report.specs.Reported.{MapListed};

use answers::judge::Count;
use held::map::Map;
use held::tables::{Tables, View};
use mapfile::file::{Opened, read_file};
use report::file::list_file;
use report::map::list_map;

// What the program `listing` prints for these bytes, and how many bytes it has.
#[unsafe(no_mangle)]
pub extern "C" fn runcedau_list_file(bytes: &[u8], out: &mut [u8]) -> Count
    ensures { Listed bytes.now out.old out.new result }
{
    Count::from(list_file(bytes, out))
}

// Reads a map file into the tables; a refused one leaves them as they were.
#[unsafe(no_mangle)]
pub extern "C" fn runcedau_lent_read(
    bytes: &[u8],
    cells: &mut [u64],
    points: &mut [u64],
    statuses: &mut [u8],
    blockers: &mut [u64],
    pairs: &mut [u64],
) -> Opened
    ensures { FileRead bytes.now
        (tables_of cells.old points.old statuses.old blockers.old pairs.old)
        (tables_of cells.new points.new statuses.new blockers.new pairs.new) result }
{
    let mut tables = Tables {
        cells,
        points,
        statuses,
        blockers,
        pairs,
    };
    Opened::from(read_file(bytes, &mut tables))
}

// The listing of a map, and how many bytes it has.
#[unsafe(no_mangle)]
pub extern "C" fn runcedau_lent_list(
    map: Map,
    cells: &[u64],
    points: &[u64],
    statuses: &[u8],
    blockers: &[u64],
    pairs: &[u64],
    out: &mut [u8],
) -> Count
    ensures { MapListed map cells.now points.now statuses.now blockers.now pairs.now
        out.old out.new result }
{
    let tables = View {
        cells,
        points,
        statuses,
        blockers,
        pairs,
    };
    Count::from(list_map(map, tables, out))
}
