// The listing of a map.
ghost use Rattle.answers.specs.Told.{counted};
ghost use Rattle.report.specs.Reported.{MapListed};

use crate::counts::count_all;
use answers::judge::refuse;
use answers::pairs::all_pairs;
use held::map::Map;
use held::tables::View;
use limits::dues::Due;
use limits::refusal::Refusal;
use print::counts::put_counts;
use print::pairs::put_pairs;
use print::points::put_points;
use sizes::{LISTED, LISTING};

// Writes the listing of a map: its counts, its points, its pairs. The count that is returned is that of its bytes.
pub fn list_map(map: Map, tables: View, out: &mut [u8]) -> Result<usize, Refusal>
    ensures { MapListed map tables.entry.cells.now tables.entry.points.now tables.entry.statuses.now
        tables.entry.blockers.now tables.entry.pairs.now out.old out.new (counted result) }
{
    let short = tables.is_short() || out.len() < LISTING;
    refuse(short, map, Due::none())?;
    let mut lesser = [0; LISTED];
    let mut greater = [0; LISTED];
    let mut blocks = [0; LISTED];
    let found = all_pairs(
        map,
        tables.points,
        tables.pairs,
        &mut lesser,
        &mut greater,
        &mut blocks,
    )?;
    let edges = found.min(LISTED);
    let counts = count_all(map, tables, edges)?;
    let n = map.points;
    let a = put_counts(out, counts);
    let b = put_points(
        out,
        a,
        &tables.points[..n],
        &tables.statuses[..n],
        &tables.blockers[..n],
    );
    Ok(put_pairs(
        out,
        b,
        &lesser[..edges],
        &greater[..edges],
        &blocks[..edges],
    ))
}
