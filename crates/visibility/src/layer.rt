// A layer's four tables, drawn anew.
ghost use Rattle.std.specs.Prelude.{◌≡◌, ◌++◌, ◌*◌, ◌≤◌, drop, length};
ghost use Rattle.held.specs.Holds.{tables_of};
ghost use Rattle.held.specs.Pairs.{pair_places};
ghost use Rattle.model.specs.Limits.{max_points};
ghost use Rattle.sight.specs.Blocked.{Fitting, Stood, words_of};
ghost use Rattle.visibility.specs.Basis.{DrawsAfresh, DrawsPairs, DrawsPoints, RedrawsAll, Replaces};
ghost use Rattle.visibility.specs.Layers.{numbers_of};
ghost use Rattle.visibility.specs.Lent.{Same, over};

use crate::lent::Layer;
use batches::lists::Changes;
use looks::tests::Ground;
use marks::lists::Moods;
use marks::mood::Mood;
use sight::blocker::block_points;
use sight::pair::join_pairs;
use sizes::{PAIRS, POINTS};
use table::copy::{copy, fill};

// What a layer is drawn from: the floor, how many cells away a changed one can matter, the confirmed changes, and the points that there
// are then with their moods. The floor lives shorter than the others: its cells are in a table of the same map.
#[derive(Clone, Copy)]
pub(crate) struct Basis<'a, 'b> {
    pub(crate) ground: Ground<'a>,
    pub(crate) reach: u64,
    pub(crate) changes: Changes<'b>,
    pub(crate) points: Moods<'b>,
}

// At most FEW points count as few: the rows of their pairs.
const FEW: usize = 16;

const FEW_PAIRS: usize = FEW * POINTS;

// Writes the statuses of the points to the front of `out`, by their places: no proof knows what a zip with `iter_mut` leaves.
fn write_statuses(moods: &[u64], out: &mut [u8])
    requires { length moods.now ≤ length out.old }
    ensures { (S : Stood) → Fitting S → moods.now ≡ words_of S
        → out.new ≡ numbers_of S ++ drop (length S) out.old }
{
    for (i, mood) in moods.iter().enumerate() {
        out[i] = Mood::of_word(*mood).status;
    }
}

// Writes the keys, statuses and blockers of the points that there are now over those of the points that there were, which had `count`
// blockers. The new blockers are worked out from the old ones first.
fn draw_points(
    basis: Basis,
    count: usize,
    points: &mut [u64],
    statuses: &mut [u8],
    blockers: &mut [u64],
)
    requires { (length basis.points.words.now ≤ max_points) × (count ≤ length blockers.old) }
    ensures { DrawsPoints basis.entry count points.old points.new statuses.old statuses.new blockers.old blockers.new }
{
    let mut keys = [0u64; POINTS];
    copy(basis.points.points, &mut keys[..]);
    let mut numbers = [0u8; POINTS];
    write_statuses(basis.points.words, &mut numbers[..]);
    let mut blocks = [0u64; POINTS];
    let old = &blockers[..count];
    block_points(
        basis.ground,
        basis.reach,
        basis.changes,
        basis.points,
        old,
        &mut blocks[..],
    );
    copy(&keys[..], points);
    copy(&numbers[..], statuses);
    copy(&blocks[..], blockers);
}

// Writes the pairs of the points over a table whose pairs are in its first `rows` rows, from the old pairs.
fn draw_pairs(basis: Basis, rows: usize, old: &[u64], pairs: &mut [u64])
    requires { (rows ≤ max_points) × (max_points * rows ≤ length pairs.old) }
    ensures { DrawsPairs basis.entry rows old.now pairs.old pairs.new }
{
    let used = POINTS * rows;
    fill(&mut pairs[..used], 0);
    join_pairs(basis.ground, basis.changes, basis.points, old, pairs);
}

// Writes the pairs of the points over those of the `count` points that there were, of which it first keeps a copy of N places.
fn replace_pairs<const N: usize>(basis: Basis, count: usize, pairs: &mut [u64])
    requires { (length basis.points.points.now ≤ max_points) × (count ≤ max_points) × (max_points * count ≤ N)
        × (N ≤ length pairs.old) × (pair_places ≤ length pairs.old) }
    ensures { Replaces basis.entry count pairs.old pairs.new }
{
    let mut kept = [0u64; N];
    copy(&pairs[..N], &mut kept[..]);
    let rows = basis.points.points.len().max(count);
    draw_pairs(basis, rows, &kept[..], pairs);
}

// The same, where few points need a small copy. Nothing is written where the table is short.
fn redraw_pairs(basis: Basis, count: usize, pairs: &mut [u64])
    requires { length basis.points.points.now ≤ max_points }
    ensures { Replaces basis.entry count pairs.old pairs.new }
{
    if pairs.len() < PAIRS || POINTS < count {
        return;
    }
    if count <= FEW {
        replace_pairs::<FEW_PAIRS>(basis, count, pairs);
    } else {
        replace_pairs::<PAIRS>(basis, count, pairs);
    }
}

// Writes the tables of the points that there are now over those of the `count` points that there were.
pub(crate) fn redraw(
    basis: Basis,
    count: usize,
    points: &mut [u64],
    statuses: &mut [u8],
    blockers: &mut [u64],
    pairs: &mut [u64],
)
    requires { (length basis.points.points.now ≤ max_points) × (length basis.points.words.now ≤ max_points)
        × (count ≤ length blockers.old) }
    ensures { RedrawsAll basis.entry count
        (tables_of basis.entry.ground.cells.now points.old statuses.old blockers.old pairs.old)
        (tables_of basis.entry.ground.cells.now points.new statuses.new blockers.new pairs.new) }
{
    draw_points(basis, count, points, statuses, blockers);
    redraw_pairs(basis, count, pairs);
}

// Writes the tables of the points from nothing: no blocker and no pair of the `before` points that there were is kept.
pub(crate) fn draw_afresh(basis: Basis, before: usize, layer: &mut Layer)
    requires { (length basis.points.points.now ≤ max_points) × (length basis.points.words.now ≤ max_points)
        × (before ≤ max_points) × (pair_places ≤ length layer.old.pairs.now) }
    ensures drawn { DrawsAfresh basis.entry before
        (over basis.entry.ground.cells.now layer.old) (over basis.entry.ground.cells.now layer.new) }
    ensures same { Same layer.old layer.new }
{
    // Each table is taken whole, before any is written.
    let points = &mut *layer.points;
    let statuses = &mut *layer.statuses;
    let blockers = &mut *layer.blockers;
    let pairs = &mut *layer.pairs;
    draw_points(basis, 0, points, statuses, blockers);
    let rows = basis.points.points.len().max(before);
    draw_pairs(basis, rows, &[], pairs);
}
