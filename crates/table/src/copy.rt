// A list written to the front of another, and one value everywhere.
ghost use Rattle.std.specs.Prelude.{◌≡◌, length, replicate};
ghost use Rattle.table.specs.Copied.{Copied};

// Nothing is written where there is no room.
pub fn copy<T: Copy>(from: &[T], to: &mut [T])
    ensures { Copied from.now to.old to.new }
{
    if from.len() <= to.len() {
        to[..from.len()].copy_from_slice(from);
    }
}

// All of it becomes `value`.
pub fn fill<T: Copy>(t: &mut [T], value: T)
    ensures { t.new ≡ replicate (length t.old) value }
{
    for x in t.iter_mut() {
        *x = value;
    }
}
