// The tables themselves, as the last call left them:
//
// T  no number; then the map's points and pairs, p x y status blocker and e x y x y blocker, with a ! where the pair's two places
//    in the table differ. After a refused call they are those of the map before it.
ghost use Rattle.std.specs.Prelude.{◌<◌, ◌≤◌};
ghost use Rattle.held.specs.Pairs.{max_points};

use crate::store::Store;
use crate::write::{write_pair, write_points};
use held::map::Map;
use replay::lines::Reply;
use sizes::POINTS;
use std::io;
use std::io::Write;

// A pair as the lesser point's row has it, and as the greater's has it, 0 for no pair.
fn write_both<W: Write>(
    output: &mut W,
    lesser: u64,
    greater: u64,
    there: u64,
    back: u64,
) -> io::Result<()> {
    if there != back {
        write_pair(output, lesser, greater, there, b" !\n")
    } else if there != 0 {
        write_pair(output, lesser, greater, there, b"\n")
    } else {
        Ok(())
    }
}

// A point's pairs with those that are not less. None has one with itself.
fn write_row<W: Write>(output: &mut W, i: usize, count: usize, store: &Store) -> io::Result<()>
    requires { (i < count) × (count ≤ max_points) }
{
    for j in i..count {
        write_both(
            output,
            store.points[i],
            store.points[j],
            store.pairs[POINTS * i + j],
            store.pairs[POINTS * j + i],
        )?;
    }
    Ok(())
}

// Every point and every pair of a map.
pub(crate) fn tell_tables<W: Write>(
    reply: &mut Reply<'_, W>,
    map: Map,
    store: &Store,
) -> io::Result<()> {
    reply.answer(&[])?;
    let count = map.points.min(POINTS);
    write_points(
        reply.output,
        count,
        &store.points,
        &store.statuses,
        &store.blockers,
    )?;
    for i in 0..count {
        write_row(reply.output, i, count, store)?;
    }
    Ok(())
}
