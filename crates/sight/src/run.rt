// The changes of a batch, one after another.
ghost use Rattle.std.specs.List.{zip};
ghost use Rattle.sight.specs.Run.{Ran};

use batches::lists::Changes;

// The blocker `start` after the changes in turn: a cell that is filled becomes the blocker where it `meets` what is looked for, and
// freeing the blocker looks `again`. 0 stays the number for no blocker: the lent tables hold it, and they are C's interface.
pub(crate) fn run<M: Fn(u64, u64) -> bool, A: Fn() -> u64>(
    changes: Changes,
    start: u64,
    meets: M,
    again: A,
) -> u64
    requires meets { M.IsAlwaysCallable meets }
    requires again { A.IsAlwaysCallable again }
    ensures { Ran (M.post meets) (A.post again) (zip changes.entry.cells.now changes.entry.full.now) start result }
{
    let mut block = start;
    // Cut to one length, so that the loop has one end to look for.
    let n = changes.cells.len().min(changes.full.len());
    for (c, full) in changes.cells[..n].iter().zip(&changes.full[..n]) {
        if *full == 0 {
            if block == *c {
                block = again();
            }
        } else if meets(block, *c) {
            block = *c;
        }
    }
    block
}
