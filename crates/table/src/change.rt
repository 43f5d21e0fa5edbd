// Keys put into a table and taken out. The used part comes first, and the unused rest is zero.
ghost use Rattle.std.specs.Prelude.{◌≡◌, ◌<◌, length};
ghost use Rattle.model.specs.Maps.{cut};
ghost use Rattle.table.specs.Tables.{Changed, added, put_at, shift_down, shift_up};

use crate::place::find;

// Every entry one place up: the last is lost, the first stays.
fn shift_up(t: &mut [u64])
    ensures { t.new ≡ shift_up t.old }
{
    if 1 < t.len() {
        t.copy_within(..t.len() - 1, 1);
    }
}

// Every entry one place down: the first is lost, and the last is zero.
fn shift_down(t: &mut [u64])
    requires { 0 < length t.old }
    ensures { t.new ≡ shift_down t.old }
{
    t.copy_within(1.., 0);
    t[t.len() - 1] = 0;
}

// Puts k in at a place. Only the stretch from there onward is lent for shifting.
fn put_at(t: &mut [u64], at: usize, k: u64)
    requires { at < length t.old }
    ensures { t.new ≡ put_at at k t.old }
{
    shift_up(&mut t[at..]);
    t[at] = k;
}

// Puts k into the first n keys, if it is not there and there is room. Returns how many keys there are then. The used keys and their count
// stay apart, here and below: C lends a table longer than what is used, and a map's struct has the count.
pub fn insert(t: &mut [u64], n: usize, k: u64) -> usize
    ensures { Changed (added (length t.old) k) t.old n t.new result }
{
    if t.len() <= n {
        return n;
    }
    let Err(at) = find(&t[..n], k) else {
        return n;
    };
    put_at(&mut t[..n + 1], at, k);
    n + 1
}

// Takes k out of the first n keys, if it is there. Returns how many keys there are then.
pub fn remove(t: &mut [u64], n: usize, k: u64) -> usize
    ensures { Changed (cut k) t.old n t.new result }
{
    if t.len() < n {
        return n;
    }
    let Ok(at) = find(&t[..n], k) else {
        return n;
    };
    shift_down(&mut t[at..n]);
    n - 1
}
