// What a field's value says: a float's bits, or a batch of entries.
ghost use Rattle.std.specs.Prelude.{◌≡◌, ◌/◌, length};
ghost use Rattle.model.specs.MapFile.{bad_flag, entry_bytes, float64};
ghost use Rattle.mapfile.specs.Fields.{Numbers};

use crate::head::ENTRY;
use ieee::bits::float_of;

// The float of 8 bytes, big-endian.
pub(crate) fn float_at(value: &[u8]) -> f64
    requires { length value.now ≡ 8 }
    ensures { result ≡ float64 value.now }
{
    float_of(u64::from_be_bytes(*value.first_chunk().unwrap()))
}

// Whether the last byte of an entry is neither 0 nor 1.
pub(crate) fn bad_flags(value: &[u8]) -> bool
    ensures { result ≡ bad_flag (length value.now / entry_bytes) value.now }
{
    let (entries, _) = value.as_chunks::<ENTRY>();
    entries.iter().any(|entry| 1 < entry[8])
}

// The entries as the library takes them: x, y, and 0 or 1, where there is room for them. Returns how many numbers there are.
// Three numbers for an entry, and not a struct: C's batches are so.
pub(crate) fn numbers_of(value: &[u8], out: &mut [i64]) -> usize
    ensures { Numbers value.now result out.old out.new }
{
    let (entries, _) = value.as_chunks::<ENTRY>();
    if out.len() / 3 < entries.len() {
        return 0;
    }
    for (i, [a, b, c, d, e, f, g, h, full]) in entries.iter().enumerate() {
        out[3 * i] = i32::from_be_bytes([*a, *b, *c, *d]) as i64;
        out[3 * i + 1] = i32::from_be_bytes([*e, *f, *g, *h]) as i64;
        out[3 * i + 2] = *full as i64;
    }
    3 * entries.len()
}
