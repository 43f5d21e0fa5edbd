// One field of a map file.
ghost use Rattle.std.specs.Prelude.{◌≡◌, ◌≤◌, ◌*◌, ◌/◌, false, length};
ghost use Rattle.held.specs.Lent.{Same, lists_of};
ghost use Rattle.model.specs.Limits.{max_batch};
ghost use Rattle.model.specs.MapFile.{bad_flag, entry_bytes};
ghost use Rattle.mapfile.specs.Reads.{FieldRead, TookBatch, TookRadius, at_field, size_taken, stopped_at};

use crate::head::{Expected, read_head};
use crate::state::{FileRefusal, Reader, Reading};
use crate::value::{float_at, numbers_of};
use batches::lists::Outputs;
use held::tables::Tables;
use limits::judge::bad_size;
use limits::refusal::Refusal;
use sizes::{BATCH, CORNERS, NUMBERS};
use visibility::change::change_cells;
use visibility::open::open;

// The file stops here: after FF that is its end.
fn stop(reader: Reader) -> Result<Reading, Refusal>
    ensures { at_field reader.field result ≡ stopped_at reader }
{
    match reader.expected {
        Expected::End => Ok(Reading::Done(reader.map)),
        _ => Err(Refusal::BadFile),
    }
}

// Field 01: the cell size.
fn take_size(reader: Reader, value: &[u8], used: usize) -> Result<Reading, Refusal>
    requires { length value.now ≡ 8 }
    ensures { at_field reader.field result ≡ size_taken reader value.now used }
{
    let size = float_at(value);
    if bad_size(size) {
        return Err(Refusal::CellSize);
    }
    Ok(Reading::More(reader.onward(Expected::Radius, size, reader.map), used))
}

// Field 02: the radius, with which the map is opened.
fn take_radius(
    reader: Reader,
    value: &[u8],
    used: usize,
    tables: &mut Tables,
) -> Result<Reading, Refusal>
    requires { length value.now ≡ 8 }
    ensures said { TookRadius reader value.now used (lists_of tables.old) (lists_of tables.new) (at_field reader.field result) }
    ensures same { Same tables.old tables.new }
{
    let map = open(reader.size, float_at(value), tables)?;
    Ok(Reading::More(reader.onward(Expected::Batches, reader.size, map), used))
}

// Field 03: a batch. What it confirms is not asked for.
fn take_batch(
    reader: Reader,
    value: &[u8],
    used: usize,
    tables: &mut Tables,
) -> Result<Reading, Refusal>
    requires { (length value.now ≤ entry_bytes * max_batch) × (bad_flag (length value.now / entry_bytes) value.now ≡ false) }
    ensures said { TookBatch reader value.now used (lists_of tables.old) (lists_of tables.new) (at_field reader.field result) }
    ensures same { Same tables.old tables.new }
{
    let mut numbers = [0i64; NUMBERS];
    let n = numbers_of(value, &mut numbers);
    let mut outputs = Outputs {
        confirmed: &mut [0; BATCH],
        full: &mut [0; BATCH],
        corners: &mut [0; CORNERS],
        altered: &mut [0; CORNERS],
    };
    let changed = change_cells(reader.map, tables, &numbers[..n], &mut outputs)?;
    Ok(Reading::More(
        reader.onward(Expected::Batches, reader.size, changed.map),
        used,
    ))
}

// The field with which `bytes` begin, or the end.
fn take_field(reader: Reader, bytes: &[u8], tables: &mut Tables) -> Result<Reading, Refusal>
    ensures said { FieldRead reader bytes.now (lists_of tables.old) (lists_of tables.new) (at_field reader.field result) }
    ensures same { Same tables.old tables.new }
{
    if tables.is_short() {
        return Err(Refusal::ShortTable);
    }
    if bytes.is_empty() {
        return stop(reader);
    }
    let head = read_head(reader.expected, bytes)?;
    let used = head.length + 3;
    let value = &bytes[3..used];
    match reader.expected {
        Expected::Size => take_size(reader, value, used),
        Expected::Radius => take_radius(reader, value, used, tables),
        Expected::Batches if head.tag == 3 => take_batch(reader, value, used, tables),
        Expected::Batches => {
            let next = reader.onward(Expected::End, reader.size, reader.map);
            Ok(Reading::More(next, used))
        }
        Expected::End => Err(Refusal::BadFile),
    }
}

// Takes the field with which `bytes` begin. They are the rest of the file, or its next 2,307 bytes at least: no field that is accepted has more. A refusal
// leaves every table as it was.
pub fn one_field(reader: Reader, bytes: &[u8], tables: &mut Tables) -> Result<Reading, FileRefusal>
    ensures said { FieldRead reader bytes.now (lists_of tables.old) (lists_of tables.new) result }
    ensures same { Same tables.old tables.new }
{
    take_field(reader, bytes, tables).map_err(|refusal| FileRefusal {
        refusal,
        field: reader.field,
    })
}
