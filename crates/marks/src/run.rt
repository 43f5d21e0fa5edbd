// The marks in their order, over the candidates.
ghost use Rattle.std.specs.Prelude.{◌≡◌, ℕ, ◌+◌, ◌<◌, ◌≤◌, length};
ghost use Rattle.corner.specs.Weights.{dir};
ghost use Rattle.model.specs.Corner.{Bits, number};
ghost use Rattle.model.specs.Layer.{Points, marks_of};
ghost use Rattle.model.specs.Limits.{max_points, max_shift, need_corners};
ghost use Rattle.model.specs.Maps.{Asc, AscL, keys};
ghost use Rattle.marks.specs.Marked.{Begins, Bordered, MarksAll};
ghost use Rattle.held.specs.Layers.{statuses_of};
ghost use Rattle.marks.specs.Standing.{Small, Standing, begun, max_marks, mood, standing, stood, words};

use crate::gather::{ORDER, shifted};
use crate::lists::Statuses;
use crate::mood::{MARKS, Mood};
use corner::bits::{Corner, CornerStatus};
use table::place::{place, stands_at};

// What is known of the candidate k before the marks.
fn begin_at(points: Statuses, k: u64) -> Mood
    requires { (length points.cells.now ≤ length points.statuses.now) × (length points.cells.now ≤ max_points) }
    ensures { (result.status < 16) × (result.old < 128) × (result.first ≡ 0)
        × ((ps : Points) → points.entry.cells.now ≡ keys ps → points.entry.statuses.now ≡ statuses_of ps → Asc 0 ps → result ≡ mood (begun ps k)) }
{
    let at = place(points.cells, k);
    if stands_at(points.cells, at, k) {
        return Mood {
            status: points.statuses[at] % 16,
            old: at as u64 + 1,
            first: 0,
        };
    }
    Mood {
        status: 0,
        old: 0,
        first: 0,
    }
}

// What is known of all candidates before the marks.
pub(crate) fn begin(points: Statuses, candidates: &[u64], moods: &mut [u64])
    requires { (length points.cells.now ≤ length points.statuses.now) × (length points.cells.now ≤ max_points) × (length candidates.now ≡ length moods.old) }
    ensures { Begins points.entry.cells.now points.entry.statuses.now candidates.now moods.new }
{
    for (i, k) in candidates.iter().enumerate() {
        moods[i] = begin_at(points, *k).word();
    }
}

// The n-th mark, at the key k.
fn mark(candidates: &[u64], moods: &mut [u64], k: u64, corner: Corner, on: bool, n: u64)
    requires { (length candidates.now ≡ length moods.old) × (n + 1 < max_marks) }
    ensures { (length moods.new ≡ length moods.old)
        × ((f : ℕ → Standing) → AscL 0 candidates.now → ((x : ℕ) → Small (f x)) → moods.old ≡ words f candidates.now
        → moods.new ≡ words (λ x. stood n (record { dir = dir corner; at = k; on = on }) x (f x)) candidates.now) }
{
    let at = place(candidates, k);
    if stands_at(candidates, at, k) {
        let was = Mood::of_word(moods[at]);
        if was.first < MARKS {
            moods[at] = was.marked(corner, on, n).word();
        }
    }
}

// The four marks of the cell k's corners, the first being the n-th.
fn mark_corners(candidates: &[u64], moods: &mut [u64], k: u64, status: u8, shift: u64, n: u64)
    requires { (length candidates.now ≡ length moods.old) × (shift ≤ max_shift) × (n + 4 < max_marks) }
    ensures { (length moods.new ≡ length moods.old)
        × ((f : ℕ → Standing) (b : Bits) → AscL 0 candidates.now → ((x : ℕ) → Small (f x)) → status ≡ number b → Bordered k
        → moods.old ≡ words f candidates.now
        → moods.new ≡ words (λ x. standing n (marks_of shift k b) x (f x)) candidates.now) }
{
    let here = CornerStatus { bits: status };
    for (d, corner) in ORDER.iter().enumerate() {
        let point = shifted(k, shift, *corner);
        mark(
            candidates,
            moods,
            point,
            *corner,
            here.get(*corner),
            n + d as u64,
        );
    }
}

// All marks of the corners.
pub(crate) fn mark_all(candidates: &[u64], moods: &mut [u64], corners: Statuses, shift: u64)
    requires { (length candidates.now ≡ length moods.old) × (shift ≤ max_shift)
        × (length corners.cells.now ≤ length corners.statuses.now) × (length corners.cells.now ≤ need_corners) }
    ensures { (length moods.new ≡ length moods.old)
        × MarksAll shift candidates.now corners.entry.cells.now corners.entry.statuses.now moods.old moods.new }
{
    for (i, k) in corners.cells.iter().enumerate() {
        mark_corners(
            candidates,
            moods,
            *k,
            corners.statuses[i],
            shift,
            4 * i as u64,
        );
    }
}
