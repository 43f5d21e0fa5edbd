// What blocks the points.
ghost use Rattle.std.specs.Prelude.{◌≤◌, length};
ghost use Rattle.sight.specs.Blocked.{BlocksPoints, PointRuns, PointStarts};

use crate::run::run;
use crate::within::within;
use batches::lists::Changes;
use looks::tests::Ground;
use marks::lists::Moods;
use marks::mood::Mood;

// The point k that `start` blocks (0 for none), after the changes in turn: a cell within reach blocks a free point, and freeing
// the blocker repeats the square test.
fn run_point(ground: Ground, reach: u64, changes: Changes, k: u64, start: u64) -> u64
    ensures { PointRuns ground.entry.size ground.entry.radius reach ground.entry.cells.now changes.entry.cells.now changes.entry.full.now k start result }
{
    run(
        changes,
        start,
        |block, c| block == 0 && within(c, k, reach),
        || ground.square_at(k),
    )
}

// Where the blocker of the point k begins: with the old one, or with its square test.
fn start_point(ground: Ground, old: &[u64], k: u64, was: Mood) -> u64
    ensures { PointStarts ground.entry.size ground.entry.radius ground.entry.cells.now old.now k was result }
{
    let at = was.old as usize;
    if at == 0 {
        return ground.square_at(k);
    }
    if at <= old.len() {
        return old[at - 1];
    }
    0
}

// Writes what blocks each point to the front of `out`. Nothing is written where a list is short.
pub fn block_points(
    ground: Ground,
    reach: u64,
    changes: Changes,
    present: Moods,
    old: &[u64],
    out: &mut [u64],
)
    ensures { BlocksPoints ground.entry.size ground.entry.radius reach ground.entry.cells.now changes.entry.cells.now changes.entry.full.now
        present.entry.points.now present.entry.words.now old.now out.old out.new }
{
    let n = present.points.len();
    if changes.full.len() < changes.cells.len() || present.words.len() < n || out.len() < n {
        return;
    }
    for (i, k) in present.points.iter().enumerate() {
        let start = start_point(ground, old, *k, Mood::of_word(present.words[i]));
        out[i] = run_point(ground, reach, changes, *k, start);
    }
}
