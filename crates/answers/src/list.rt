// A list written to the front of a lent output.
ghost use Rattle.table.specs.Copied.{Copied};

// Entry by entry: std's `copy_from_slice` calls `memmove`, which a C program that links these lists alone would have to bring. Nothing is written
// where there is no room.
pub(crate) fn list<T: Copy>(entries: &[T], out: &mut [T])
    ensures { Copied entries.now out.old out.new }
{
    if out.len() < entries.len() {
        return;
    }
    for (i, entry) in entries.iter().enumerate() {
        out[i] = *entry;
    }
}
