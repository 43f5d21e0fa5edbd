// A field's tag and length, and whether its value is there (RULES 5.2: a tag before its length, a length before its value).
ghost use Rattle.std.specs.Prelude.{◌≡◌};
ghost use Rattle.limits.specs.Refusals.{code};
ghost use Rattle.model.specs.MapFile as model;
ghost use Rattle.mapfile.specs.Fields.{HeadRead, expected_of};

use crate::value::bad_flags;
use limits::refusal::Refusal;
use sizes::BATCH;

// Bytes of an entry of a batch, and of the longest value of a field 03.
pub(crate) const ENTRY: usize = 9;

const VALUE: usize = ENTRY * BATCH;

// What may come next: field 01, field 02, a field 03 or FF, nothing.
#[derive(Clone, Copy, Debug, PartialEq, Eq)]
pub enum Expected {
    Size,
    Radius,
    Batches,
    End,
}

// The field's tag, and how many bytes its value has. The tag is a byte and no enum: a file may have any, and what is due is told of any.
#[derive(Clone, Copy)]
pub(crate) struct Head {
    pub tag: u8,
    pub length: usize,
}

fn placed(expected: Expected, tag: u8) -> bool
    ensures { result ≡ model.placed (expected_of expected) tag }
{
    match expected {
        Expected::Size => tag == 1,
        Expected::Radius => tag == 2,
        Expected::Batches => tag == 3 || tag == 255,
        Expected::End => false,
    }
}

fn fitting(tag: u8, n: usize) -> bool
    ensures { result ≡ model.fitting tag n }
{
    match tag {
        3 => n % ENTRY == 0,
        255 => n == 0,
        _ => n == 8,
    }
}

// Which refusal is due of a tag in its place with the length n; `rest` is what follows the length.
fn due(tag: u8, n: usize, rest: &[u8]) -> Result<(), Refusal>
    ensures { code result ≡ model.due tag n rest.now }
{
    if tag == 3 && VALUE < n {
        return Err(Refusal::LongBatch);
    }
    if !fitting(tag, n) || rest.len() < n {
        return Err(Refusal::BadFile);
    }
    if tag == 3 && bad_flags(&rest[..n]) {
        return Err(Refusal::BadFile);
    }
    Ok(())
}

// Judges the field with which `bytes` begin.
pub(crate) fn read_head(expected: Expected, bytes: &[u8]) -> Result<Head, Refusal>
    ensures { HeadRead (expected_of expected) bytes.now result }
{
    let [tag, high, low, rest @ ..] = bytes else {
        return Err(Refusal::BadFile);
    };
    if !placed(expected, *tag) {
        return Err(Refusal::BadFile);
    }
    let length = u16::from_be_bytes([*high, *low]) as usize;
    due(*tag, length, rest)?;
    Ok(Head { tag: *tag, length })
}
