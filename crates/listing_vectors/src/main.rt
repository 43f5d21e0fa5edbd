// Lists the map files of the folder that it is run in, 0000, 0001 and so on to the last, each as `listing` lists its input, and through
// the shortest buffer that will do. An empty line follows each listing. What the Rust with ordered maps gives is in the file stdout
// beside src/, and after it what is told of a folder, which opens and cannot be read, and of a file that is open for reading only.
#![tactic(auto)]

ghost use Rattle.std.specs.Prelude.{◌≡◌, ◌%◌, ◌+◌};
ghost use Rattle.listing_vectors.specs.Names.{name_of};

use intake::output::{ShowError, show_input};
use sizes::{LISTING, WINDOW};
use std::fs::File;
use std::io;
use std::io::{Read, Write};

fn digit(n: u64) -> u8
    ensures { result ≡ 48 + n % 10 }
{
    (48 + n % 10) as u8
}

// The name of a file: four digits.
fn name_of(n: u64) -> [u8; 4]
    ensures { result ≡ name_of n }
{
    [digit(n / 1000), digit(n / 100), digit(n / 10), digit(n)]
}

// Lists what a reader gives to a writer, and tells on standard output where that fails.
fn tell<R: Read, W: Write>(
    rt: &HostRuntime,
    from: &mut R,
    to: &mut W,
    buffer: &mut [u8],
    out: &mut [u8],
) -> io::Result<()> {
    match show_input(from, to, buffer, out) {
        Ok(()) => Ok(()),
        Err(ShowError::Unwritten) => println!(rt; "unwritten"),
        Err(ShowError::Unread) => println!(rt; "unread"),
    }
}

// The file of that name, and whether there is one.
fn list_file(rt: &HostRuntime, name: &str, buffer: &mut [u8], out: &mut [u8]) -> io::Result<bool> {
    let Ok(mut file) = File::open(rt, name) else {
        return Ok(false);
    };
    tell(rt, &mut file, &mut rt.stdout(), buffer, out)?;
    println!(rt)?;
    Ok(true)
}

fn list_all(rt: &HostRuntime, buffer: &mut [u8], out: &mut [u8]) -> io::Result<()> {
    for n in 0..10000 {
        let name = name_of(n);
        let text = str::from_utf8(&name).unwrap();
        if !list_file(rt, text, buffer, out)? {
            break;
        }
    }
    Ok(())
}

// A listing that cannot be written.
fn list_nowhere(rt: &HostRuntime, buffer: &mut [u8], out: &mut [u8]) -> io::Result<()> {
    let file = File::open(rt, "0000")?;
    tell(rt, &mut &file, &mut &file, buffer, out)
}

fn main(rt: HostRuntime) -> io::Result<()> {
    let mut buffer = [0u8; WINDOW];
    let mut out = [0u8; LISTING];
    list_all(&rt, &mut buffer, &mut out)?;
    list_file(&rt, ".", &mut buffer, &mut out)?;
    list_nowhere(&rt, &mut buffer, &mut out)
}
