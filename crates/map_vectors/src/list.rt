// The lists that may be asked of a map. Each line comes back with the refusal and how many there are, then each on a line of its own:
//
// O, F: the occupied cells, the points that nothing blocks: . x y
// C  the cells with a corner: ^ x y status
// P  all points: p x y status blocker
// E, U: all pairs, the open ones: e x y x y blocker
use crate::write::{answer_count, write_cells, write_pair, write_points};
use answers::cells::{corner_cells, occupied_cells};
use answers::pairs::{all_pairs, open_pairs};
use answers::points::{all_points, free_points};
use held::map::Map;
use held::tables::View;
use replay::change::write_changes;
use replay::lines::Reply;
use sizes::{CELLS, LISTED, POINTS};
use std::io;
use std::io::Write;

// Writes the first `count` pairs.
fn write_pairs<W: Write>(
    output: &mut W,
    lesser: &[u64],
    greater: &[u64],
    blocks: &[u64],
    count: usize,
) -> io::Result<()> {
    let rows = lesser.iter().zip(greater).zip(blocks);
    for ((from, to), blocker) in rows.take(count) {
        write_pair(output, *from, *to, *blocker, b"\n")?;
    }
    Ok(())
}

fn list_cells<W: Write>(reply: &mut Reply<'_, W>, map: Map, tables: View) -> io::Result<()> {
    let mut out = [0u64; CELLS];
    let count = answer_count(reply, occupied_cells(map, tables.cells, &mut out))?;
    write_cells(reply.output, &out, count)
}

fn list_corners<W: Write>(reply: &mut Reply<'_, W>, map: Map, tables: View) -> io::Result<()> {
    let mut out = [0u64; CELLS];
    let mut statuses = [0u8; CELLS];
    let listed = corner_cells(map, tables.cells, &mut out, &mut statuses);
    let count = answer_count(reply, listed)?;
    write_changes(reply.output, b"^ ", &out, &statuses, count)
}

fn list_points<W: Write>(reply: &mut Reply<'_, W>, map: Map, tables: View) -> io::Result<()> {
    let mut out = [0u64; POINTS];
    let mut bits = [0u8; POINTS];
    let mut blocks = [0u64; POINTS];
    let listed = all_points(
        map,
        tables.points,
        tables.statuses,
        tables.blockers,
        &mut out,
        &mut bits,
        &mut blocks,
    );
    let count = answer_count(reply, listed)?;
    write_points(reply.output, count, &out, &bits, &blocks)
}

fn list_free<W: Write>(reply: &mut Reply<'_, W>, map: Map, tables: View) -> io::Result<()> {
    let mut out = [0u64; POINTS];
    let listed = free_points(map, tables.points, tables.blockers, &mut out);
    let count = answer_count(reply, listed)?;
    write_cells(reply.output, &out, count)
}

fn list_pairs<W: Write>(reply: &mut Reply<'_, W>, map: Map, tables: View) -> io::Result<()> {
    let mut lesser = [0u64; LISTED];
    let mut greater = [0u64; LISTED];
    let mut blocks = [0u64; LISTED];
    let listed = all_pairs(
        map,
        tables.points,
        tables.pairs,
        &mut lesser,
        &mut greater,
        &mut blocks,
    );
    let count = answer_count(reply, listed)?;
    write_pairs(reply.output, &lesser, &greater, &blocks, count)
}

// Nothing blocks them.
fn list_open<W: Write>(reply: &mut Reply<'_, W>, map: Map, tables: View) -> io::Result<()> {
    let mut lesser = [0u64; LISTED];
    let mut greater = [0u64; LISTED];
    let listed = open_pairs(
        map,
        tables.points,
        tables.blockers,
        tables.pairs,
        &mut lesser,
        &mut greater,
    );
    let count = answer_count(reply, listed)?;
    write_pairs(reply.output, &lesser, &greater, &[0; LISTED], count)
}

pub(crate) fn tell_list<W: Write>(
    reply: &mut Reply<'_, W>,
    letter: u8,
    map: Map,
    tables: View,
) -> io::Result<()> {
    match letter {
        b'O' => list_cells(reply, map, tables),
        b'C' => list_corners(reply, map, tables),
        b'P' => list_points(reply, map, tables),
        b'F' => list_free(reply, map, tables),
        b'E' => list_pairs(reply, map, tables),
        _ => list_open(reply, map, tables),
    }
}
