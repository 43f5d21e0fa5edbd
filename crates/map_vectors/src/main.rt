// Replays the vectors on standard input: each line is a letter and its operands of sixteen digits, and comes back with its
// answer's numbers after it, in decimals. What the Rust answers is in the file stdout beside src/. The lines that alter the map
// are those of `call`; those of `tables`, `query` and `list` leave it as it is.
#![tactic(auto)]

mod call;
mod line;
mod list;
mod query;
mod store;
mod tables;
mod write;

use call::State;
use line::{LINE, next_line};
use list::tell_list;
use query::{find, look, see, step};
use replay::lines::Reply;
use replay::program::{Program, run};
use std::io;
use std::io::{Read, Write};
use tables::tell_tables;

// A question, a list or the tables.
fn tell<W: Write>(state: &State, reply: &mut Reply<'_, W>, letter: u8) -> io::Result<()> {
    let map = state.map;
    let tables = state.store.view();
    match letter {
        b'T' => tell_tables(reply, state.told, &state.store),
        b'i' => look(reply, map, tables),
        b'p' | b's' | b'c' | b'w' => find(reply, letter, map, tables),
        b'v' => see(reply, map, tables),
        b'n' => step(reply, map, tables),
        _ => tell_list(reply, letter, map, tables),
    }
}

// What the line asks for.
fn obey<W: Write>(state: &mut State, reply: &mut Reply<'_, W>, letter: u8) -> io::Result<()> {
    match letter {
        b'o' => state.begin(reply),
        b'+' => state.add(reply, 1),
        b'-' => state.add(reply, 0),
        b'b' => state.commit(reply),
        b'r' => state.set_radius(reply),
        _ => tell(state, reply, letter),
    }
}

impl Program for State {
    fn replay<R: Read, W: Write>(&mut self, input: &mut R, output: &mut W) -> io::Result<bool> {
        let mut room = [0u8; LINE];
        let Some(line) = next_line(input, &mut room) else {
            return Ok(false);
        };
        let Some(letter) = line.first().copied() else {
            return Ok(false);
        };
        obey(self, &mut Reply { line, output }, letter)?;
        Ok(true)
    }
}

fn main(rt: HostRuntime) -> io::Result<()> {
    run(&mut State::start(), &mut rt.stdin(), &mut rt.stdout())
}
