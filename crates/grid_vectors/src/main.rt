// Replays the vectors on standard input: each line is a letter and six operands of sixteen digits, 104 bytes in all,
// and comes back with four numbers after it, in decimals. What the Rust answers is in the file stdout beside src/.
//
// o  size: a new floor
// e  x y o: one more entry of the batch, 0 for free or 1 for occupied
// b  the batch: refusal, confirmed changes, corner changes, cells; then each confirmed change on a line of its own,
//    = x y o, and each corner change, ^ x y status
// i  x y: whether the cell is occupied
// p  x y, s  x y width, c  x y radius, w  x0 y0 x1 y1 width: refusal, 1 or 0, the cell found
//
// Sizes, coordinates of points, widths and radii are bit patterns of f64, the other operands are two's complements.
#![tactic(auto)]

use batches::lists::Outputs;
use grid::change::{Changed, change_cells};
use limits::cell::is_occupied;
use limits::floor::Floor;
use limits::refusal::Refusal;
use question::ask::ask;
use replay::change::{Batch, write_changes};
use replay::lines::{Reply, read_line};
use replay::patterns::{float_at, integer_at};
use replay::program::{Program, run};
use replay::questions::{answer_place, cell_at, question_at};
use sizes::{BATCH, CELLS, CORNERS};
use std::io;
use std::io::{Read, Write};

// What is kept from line to line: the floor with its table, and the batch so far.
#[derive(Drop)]
struct Floors {
    floor: Floor,
    cells: [u64; CELLS],
    batch: Batch,
}

// The refusal, or 0 and what the batch did.
fn answer_batch<W: Write>(
    reply: &mut Reply<'_, W>,
    answer: Result<Changed, Refusal>,
) -> io::Result<()> {
    match answer {
        Ok(r) => reply.answer(&[
            0,
            r.confirmed as u64,
            r.corners as u64,
            r.floor.cells as u64,
        ]),
        Err(refusal) => reply.answer(&[refusal.number() as u64, 0, 0, 0]),
    }
}

impl Floors {
    fn find<W: Write>(&self, reply: &mut Reply<'_, W>, letter: u8) -> io::Result<()> {
        let answer = ask(self.floor, &self.cells, question_at(letter, reply.line));
        answer_place(reply, answer)
    }

    fn look<W: Write>(&self, reply: &mut Reply<'_, W>) -> io::Result<()> {
        let Some(cells) = self.cells.get(..self.floor.cells) else {
            return Ok(());
        };
        let full = is_occupied(cells, cell_at(reply.line));
        reply.answer(&[0, full as u64, 0, 0])
    }

    // A new floor, and an empty batch.
    fn open<W: Write>(&mut self, reply: &mut Reply<'_, W>) -> io::Result<()> {
        self.floor = Floor {
            size: float_at(reply.line, 2),
            cells: 0,
        };
        self.cells = [0; CELLS];
        self.batch.used = 0;
        reply.answer(&[0; 4])
    }

    // One more entry of the batch.
    fn add<W: Write>(&mut self, reply: &mut Reply<'_, W>) -> io::Result<()> {
        let line = reply.line;
        self.batch.enter(
            integer_at(line, 2),
            integer_at(line, 19),
            integer_at(line, 36),
        );
        reply.answer(&[0; 4])
    }

    // The batch so far, given to the floor.
    fn commit<W: Write>(&mut self, reply: &mut Reply<'_, W>) -> io::Result<()> {
        let mut outputs = Outputs {
            confirmed: &mut [0; BATCH],
            full: &mut [0; BATCH],
            corners: &mut [0; CORNERS],
            altered: &mut [0; CORNERS],
        };
        let floor = self.floor;
        let entries = self.batch.entries();
        let answer = change_cells(floor, &mut self.cells, entries, &mut outputs);
        self.batch.used = 0;
        answer_batch(reply, answer)?;
        let Ok(r) = answer else {
            return Ok(());
        };
        self.floor = r.floor;
        let Outputs {
            confirmed,
            full,
            corners,
            altered,
        } = outputs;
        write_changes(reply.output, b"= ", confirmed, full, r.confirmed)?;
        write_changes(reply.output, b"^ ", corners, altered, r.corners)
    }

    // What the line asks for.
    fn obey<W: Write>(&mut self, reply: &mut Reply<'_, W>, letter: u8) -> io::Result<()> {
        match letter {
            b'o' => self.open(reply),
            b'e' => self.add(reply),
            b'b' => self.commit(reply),
            b'i' => self.look(reply),
            _ => self.find(reply, letter),
        }
    }
}

impl Program for Floors {
    fn replay<R: Read, W: Write>(&mut self, input: &mut R, output: &mut W) -> io::Result<bool> {
        let Some(line) = read_line::<104, R>(input) else {
            return Ok(false);
        };
        let mut reply = Reply {
            line: &line,
            output,
        };
        self.obey(&mut reply, line[0])?;
        Ok(true)
    }
}

fn main(rt: HostRuntime) -> io::Result<()> {
    let mut floors = Floors {
        floor: Floor {
            size: 0.0,
            cells: 0,
        },
        cells: [0; CELLS],
        batch: Batch::new(),
    };
    run(&mut floors, &mut rt.stdin(), &mut rt.stdout())
}
