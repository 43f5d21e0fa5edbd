// What blocks the pairs.
ghost use Rattle.std.specs.Prelude.{◌≡◌, ◌+◌, ◌*◌, ◌<◌, ◌≤◌, get_or, length};
ghost use Rattle.std.proofs.Math.Option.{none};
ghost use Rattle.marks.specs.Standing.{Small, Standing, mood, sooner, word};
ghost use Rattle.model.specs.Batch.{Batch};
ghost use Rattle.model.specs.Good.{Inside};
ghost use Rattle.model.specs.Limits.{max_coordinate, max_points};
ghost use Rattle.model.specs.Map.{tests};
ghost use Rattle.model.specs.Maps.{AscL};
ghost use Rattle.segment.specs.Near.{IsProximity};
ghost use Rattle.table.specs.Tables.{All};
ghost use Rattle.held.specs.Codes.{block_code, pair_code};
ghost use Rattle.held.specs.Pairs.{Pairs, PairsBy, PairsNamed};
ghost use Rattle.sight.specs.Blocked.{Seeing, Stood};
ghost use Rattle.sight.specs.Paired.{Filled, PairIs, PairRuns, old_pair, pair_at, pair_start};
ghost use Rattle.sight.specs.Rows.{up_to};

use crate::run::run;
use batches::lists::Changes;
use looks::quadrant::sees;
use looks::tests::Ground;
use marks::lists::Moods;
use marks::mood::Mood;
use plane::cell::centre;
use segment::line::LineSegment;
use segment::many::NearTest;
use segment::near::Proximity;
use sizes::POINTS;

// Places of a row of the table of pairs.
const ROW: u64 = POINTS as u64;

// A point, with what is known of it.
#[derive(Clone, Copy)]
struct Point {
    key: u64,
    mood: Mood,
}

// Whether a point was queued before another, by the numbers of the first marks that queued them.
fn is_sooner(a: u64, b: u64) -> bool
    ensures { result ≡ sooner a b }
{
    a != 0 && (b == 0 || a < b)
}

// The pair of two old points as the old table has it, 0 where there is none. Here and below pairs are numbers, as C's table holds them: 0, 1
// for an open one, or a key.
fn old_pair(old: &[u64], a: u64, b: u64) -> u64
    ensures { (P : PairsBy) (w v : Standing) → Pairs P old.now → a ≡ w.old → b ≡ v.old → a ≤ max_points → b ≤ max_points
        → result ≡ pair_code (old_pair P w v) }
{
    if a == 0 || b == 0 || ROW < a || ROW < b {
        return 0;
    }
    let at = (ROW * (a - 1) + (b - 1)) as usize;
    if at < old.len() { old[at] } else { 0 }
}

// The pair (p, q) that `start` blocks (0 for none), after the changes in turn: a cell that the segment passes near becomes the
// blocker, and freeing the blocker repeats the sweep.
fn run_pair(
    ground: Ground,
    proximity: Proximity,
    changes: Changes,
    p: u64,
    q: u64,
    start: u64,
) -> u64
    ensures { PairRuns ground.entry.size ground.entry.radius proximity ground.entry.cells.now changes.entry.cells.now changes.entry.full.now p q start result }
{
    if changes.cells.len() == 0 {
        return start;
    }
    let line = LineSegment {
        p0: centre(p, ground.size),
        p1: centre(q, ground.size),
    };
    let test = NearTest::new(line, proximity, changes.cells.len());
    run(
        changes,
        start,
        |_, c| test.passes(c),
        || ground.sweep_between(p, q),
    )
}

// Where the blocker of the pair p < q begins, 0 for none: with the old one, or with the sweep from the end that was queued first.
fn start_pair(ground: Ground, old: &[u64], p: Point, q: Point) -> u64
    ensures { (P : PairsBy) (w v : Standing) → AscL 0 ground.entry.cells.now → All (Inside max_coordinate) ground.entry.cells.now
        → Pairs P old.now → PairsNamed P → p.mood ≡ mood w → q.mood ≡ mood v → w.old ≤ max_points → v.old ≤ max_points
        → result ≡ block_code (pair_start (tests ground.entry.size ground.entry.radius) ground.entry.cells.now P p.key w q.key v) }
{
    let held = old_pair(old, p.mood.old, q.mood.old);
    if held == 1 {
        return 0;
    }
    if held != 0 {
        return held;
    }
    if is_sooner(p.mood.first, q.mood.first) {
        return ground.sweep_between(p.key, q.key);
    }
    ground.sweep_between(q.key, p.key)
}

// The pair p < q as the table has it.
fn pair_between(
    ground: Ground,
    proximity: Proximity,
    changes: Changes,
    old: &[u64],
    p: Point,
    q: Point,
) -> u64
    ensures { PairIs ground.entry.size ground.entry.radius proximity ground.entry.cells.now changes.entry.cells.now changes.entry.full.now
        old.now p.key p.mood q.key q.mood result }
{
    if !sees(p.key, q.key, q.mood.status) || !sees(q.key, p.key, p.mood.status) {
        return 0;
    }
    let start = start_pair(ground, old, p, q);
    let block = run_pair(ground, proximity, changes, p.key, q.key, start);
    if block == 0 { 1 } else { block }
}

// The point at this place.
fn point_at(present: Moods, i: usize) -> Point
    requires { (i < length present.points.now) × (length present.points.now ≤ length present.words.now) }
    ensures { (result.key ≡ get_or present.entry.points.now i 0)
        × ((s : Standing) → Small s → get_or present.entry.words.now i 0 ≡ word s → result.mood ≡ mood s) }
{
    Point {
        key: present.points[i],
        mood: Mood::of_word(present.words[i]),
    }
}

// The pairs of the i-th point with those after it, from both ends.
fn join_row(
    ground: Ground,
    proximity: Proximity,
    changes: Changes,
    present: Moods,
    old: &[u64],
    i: usize,
    out: &mut [u64],
)
    requires { (length present.points.now ≤ length present.words.now) × (length present.points.now ≤ max_points)
        × (i < length present.points.now) × (max_points * length present.points.now ≤ length out.old) }
    ensures { (ch : Batch) (S : Stood) (P : PairsBy)
        → Seeing ground.entry.cells.now ch S changes.entry.cells.now changes.entry.full.now present.entry.points.now present.entry.words.now
        → IsProximity ground.entry.size ground.entry.radius proximity → Pairs P old.now → PairsNamed P
        → Pairs (up_to (max_points * i) (pair_at (tests ground.entry.size ground.entry.radius) ground.entry.cells.now ch P S)) out.old
        → Filled (up_to (max_points * (i + 1)) (pair_at (tests ground.entry.size ground.entry.radius) ground.entry.cells.now ch P S)) out.old out.new }
{
    let p = point_at(present, i);
    for j in i + 1..present.points.len() {
        let pair = pair_between(ground, proximity, changes, old, p, point_at(present, j));
        out[POINTS * i + j] = pair;
        out[POINTS * j + i] = pair;
    }
}

// Writes every pair of the points to an empty table, from both ends. Nothing is written where a list is short.
pub fn join_pairs(ground: Ground, changes: Changes, present: Moods, old: &[u64], out: &mut [u64])
    ensures { (ch : Batch) (S : Stood) (P : PairsBy)
        → Seeing ground.entry.cells.now ch S changes.entry.cells.now changes.entry.full.now present.entry.points.now present.entry.words.now
        → Pairs P old.now → PairsNamed P
        → max_points * length S ≤ length out.old → length S ≤ max_points → Pairs (λ i j. none) out.old
        → Filled (pair_at (tests ground.entry.size ground.entry.radius) ground.entry.cells.now ch P S) out.old out.new }
{
    let n = present.points.len();
    if changes.full.len() < changes.cells.len() || present.words.len() < n {
        return;
    }
    if POINTS < n || out.len() < POINTS * n {
        return;
    }
    let proximity = Proximity::new(ground.size, ground.radius);
    for i in 0..n {
        join_row(ground, proximity, changes, present, old, i, out);
    }
}
