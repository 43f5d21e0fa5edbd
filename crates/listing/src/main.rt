// Lists the map file on standard input to standard output. A file of any length is read through a buffer of fixed length, field by field. The listing is
// written once it is whole: where the input cannot be read to its end, nothing is. A listing that was cut off can be told from a whole one: its first line
// says how many lines there are, and each line ends in a line feed.
#![tactic(auto)]

use intake::output::{ShowError, show_input};
use sizes::LISTING;
use std::io;

fn main(rt: HostRuntime) -> io::Result<()> {
    let mut buffer = [0u8; 65536];
    let mut out = [0u8; LISTING];
    match show_input(&mut rt.stdin(), &mut rt.stdout(), &mut buffer, &mut out) {
        Ok(()) => Ok(()),
        Err(ShowError::Unwritten) => eprintln!(rt; "listing: not all of it could be written"),
        Err(ShowError::Unread) => eprintln!(rt;
            "listing: standard input could not be read to its end"
        ),
    }
}
