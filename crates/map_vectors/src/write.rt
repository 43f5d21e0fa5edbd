// Cells, points and pairs on lines of their own, and how many there are.
use answers::judge::Count;
use limits::refusal::Refusal;
use replay::change::write_cell;
use replay::lines::{Reply, write_number};
use std::io;
use std::io::Write;

// The refusal, and how many there are, which is returned too.
pub(crate) fn answer_count<W: Write>(
    reply: &mut Reply<'_, W>,
    answer: Result<usize, Refusal>,
) -> io::Result<usize> {
    let told = Count::from(answer);
    reply.answer(&[told.refusal as u64, told.count as u64])?;
    Ok(told.count)
}

// A number below 2 is no blocker.
fn write_blocker<W: Write>(output: &mut W, key: u64) -> io::Result<()> {
    if key < 2 {
        output.write_all(b"-")
    } else {
        write_cell(output, key, b",", b"")
    }
}

fn write_point<W: Write>(output: &mut W, key: u64, status: u8, blocker: u64) -> io::Result<()> {
    output.write_all(b"p ")?;
    write_cell(output, key, b" ", b" ")?;
    write_number(output, status as u64, b" ")?;
    write_blocker(output, blocker)?;
    output.write_all(b"\n")
}

// A pair, and what is to follow its blocker.
pub(crate) fn write_pair<W: Write>(
    output: &mut W,
    lesser: u64,
    greater: u64,
    blocker: u64,
    end: &[u8],
) -> io::Result<()> {
    output.write_all(b"e ")?;
    write_cell(output, lesser, b" ", b" ")?;
    write_cell(output, greater, b" ", b" ")?;
    write_blocker(output, blocker)?;
    output.write_all(end)
}

// Writes the first `count` points.
pub(crate) fn write_points<W: Write>(
    output: &mut W,
    count: usize,
    points: &[u64],
    statuses: &[u8],
    blockers: &[u64],
) -> io::Result<()> {
    let rows = points.iter().zip(statuses).zip(blockers);
    for ((point, status), blocker) in rows.take(count) {
        write_point(output, *point, *status, *blocker)?;
    }
    Ok(())
}

// Writes the first `count` cells.
pub(crate) fn write_cells<W: Write>(output: &mut W, cells: &[u64], count: usize) -> io::Result<()> {
    for key in cells.iter().take(count) {
        output.write_all(b". ")?;
        write_cell(output, *key, b" ", b"\n")?;
    }
    Ok(())
}
