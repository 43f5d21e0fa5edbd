// The questions about a cell or a shape of a map:
//
// i  x y: refusal, 1 or 0 for whether the cell is occupied
// p  x y, s  x y width, c  x y radius, w  x0 y0 x1 y1 width: refusal, 1 or 0, the cell found
// v  x y, n  x y: the points in sight of the cell, its neighbours: refusal, how many; then each on a line of its own, . x y
//
// Coordinates of points, widths and radii are bit patterns of f64, coordinates of cells are two's complements.
use crate::write::{answer_count, write_cells};
use answers::ask::ask;
use answers::cells::{Told, is_occupied};
use held::map::Map;
use held::tables::View;
use replay::lines::Reply;
use replay::questions::{answer_place, cell_at, question_at};
use sizes::POINTS;
use std::io;
use std::io::Write;
use views::neighbours::neighbours;
use views::visibility_from::visibility_from;

pub(crate) fn look<W: Write>(reply: &mut Reply<'_, W>, map: Map, tables: View) -> io::Result<()> {
    let told = Told::from(is_occupied(map, tables.cells, cell_at(reply.line)));
    reply.answer(&[told.refusal as u64, told.yes as u64])
}

pub(crate) fn find<W: Write>(
    reply: &mut Reply<'_, W>,
    letter: u8,
    map: Map,
    tables: View,
) -> io::Result<()> {
    let question = question_at(letter, reply.line);
    answer_place(reply, ask(map, tables.cells, question))
}

pub(crate) fn see<W: Write>(reply: &mut Reply<'_, W>, map: Map, tables: View) -> io::Result<()> {
    let mut out = [0u64; POINTS];
    let cell = cell_at(reply.line);
    let count = answer_count(reply, visibility_from(map, tables, cell, &mut out))?;
    write_cells(reply.output, &out, count)
}

pub(crate) fn step<W: Write>(reply: &mut Reply<'_, W>, map: Map, tables: View) -> io::Result<()> {
    let mut out = [0u64; POINTS];
    let cell = cell_at(reply.line);
    let count = answer_count(reply, neighbours(map, tables.cells, cell, &mut out))?;
    write_cells(reply.output, &out, count)
}
