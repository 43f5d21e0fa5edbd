// The lines that alter a map. Each comes back with its answer's numbers after it, in decimals:
//
// o  size radius: a new map: refusal, cells, points
// +  x y, -  x y: one more entry of the batch, that the cell be occupied, or free: no number
// b  the batch: refusal, 1 or 0 for whether something was confirmed, confirmed changes, corner changes, cells, points; then
//    each confirmed change on a line of its own, = x y o, and each corner change, ^ x y status
// r  radius: the radius is changed: refusal, cells, points
//
// Sizes and radii are bit patterns of f64, coordinates are two's complements.
use crate::store::Store;
use batches::lists::Outputs;
use held::map::{Map, Outcome};
use held::tables::Tables;
use limits::refusal::Refusal;
use replay::change::{Batch, write_changes};
use replay::lines::Reply;
use replay::patterns::{float_at, integer_at};
use sizes::{BATCH, CORNERS};
use std::io;
use std::io::Write;
use visibility::change::{Changed, change_cells};
use visibility::lent::Layer;
use visibility::open::open;
use visibility::radius::change_radius;

// What is kept from line to line: the tables with their map, the map whose tables are told (that before a refused opening, else the
// same), and the batch so far.
#[derive(Drop)]
pub(crate) struct State {
    pub store: Store,
    pub map: Map,
    pub told: Map,
    pub batch: Batch,
}

fn answer_map<W: Write>(reply: &mut Reply<'_, W>, answer: Result<Map, Refusal>) -> io::Result<()> {
    let Outcome { refusal, map } = Outcome::from(answer);
    reply.answer(&[refusal as u64, map.cells as u64, map.points as u64])
}

fn answer_batch<W: Write>(reply: &mut Reply<'_, W>, r: Changed) -> io::Result<()> {
    reply.answer(&[
        r.refusal as u64,
        r.yes as u64,
        r.confirmed as u64,
        r.corners as u64,
        r.map.cells as u64,
        r.map.points as u64,
    ])
}

impl State {
    // Before the first line: no map, as after a refused opening.
    pub(crate) fn start() -> State {
        State {
            store: Store::new(),
            map: Map::none(),
            told: Map::none(),
            batch: Batch::new(),
        }
    }

    // A new map, or what a refused opening gives, and an empty batch.
    pub(crate) fn begin<W: Write>(&mut self, reply: &mut Reply<'_, W>) -> io::Result<()> {
        let size = float_at(reply.line, 2);
        let radius = float_at(reply.line, 19);
        let opened = open(size, radius, &mut self.store.lend());
        self.told = opened.unwrap_or(self.map);
        self.map = opened.unwrap_or(Map::none());
        self.batch.used = 0;
        answer_map(reply, opened)
    }

    // One more entry of the batch.
    pub(crate) fn add<W: Write>(&mut self, reply: &mut Reply<'_, W>, full: i64) -> io::Result<()> {
        let line = reply.line;
        self.batch
            .enter(integer_at(line, 2), integer_at(line, 19), full);
        reply.answer(&[])
    }

    // The map after a call, if it was not refused. Its own tables are told.
    fn keep(&mut self, after: Option<Map>) {
        self.map = after.unwrap_or(self.map);
        self.told = self.map;
    }

    // The batch so far, given to the map: its numbers, then each change.
    pub(crate) fn commit<W: Write>(&mut self, reply: &mut Reply<'_, W>) -> io::Result<()> {
        let mut confirmed = [0u64; BATCH];
        let mut full = [0u8; BATCH];
        let mut corners = [0u64; CORNERS];
        let mut altered = [0u8; CORNERS];
        let mut outputs = Outputs {
            confirmed: &mut confirmed,
            full: &mut full,
            corners: &mut corners,
            altered: &mut altered,
        };
        let map = self.map;
        let entries = self.batch.entries();
        let answer = change_cells(map, &mut self.store.lend(), entries, &mut outputs);
        self.keep(answer.ok().map(|change| change.map));
        self.batch.used = 0;
        let r = Changed::from(answer);
        answer_batch(reply, r)?;
        write_changes(reply.output, b"= ", &confirmed, &full, r.confirmed)?;
        write_changes(reply.output, b"^ ", &corners, &altered, r.corners)
    }

    // Another radius, or the same again. Entries stay pending.
    pub(crate) fn set_radius<W: Write>(&mut self, reply: &mut Reply<'_, W>) -> io::Result<()> {
        let radius = float_at(reply.line, 2);
        let map = self.map;
        let Tables {
            cells,
            points,
            statuses,
            blockers,
            pairs,
        } = self.store.lend();
        let mut layer = Layer {
            points,
            statuses,
            blockers,
            pairs,
        };
        let changed = change_radius(map, cells, &mut layer, radius);
        self.keep(changed.ok());
        answer_map(reply, changed)
    }
}
