// The points after corners changed.
ghost use Rattle.std.specs.Prelude.{◌≡◌, ℕ, ◌≤◌, List, length};
ghost use Rattle.model.specs.ClosedForm.{stand};
ghost use Rattle.model.specs.Corner.{Bits};
ghost use Rattle.model.specs.Layer.{Points, marks};
ghost use Rattle.model.specs.Limits.{max_points, max_shift, need_corners};
ghost use Rattle.model.specs.Maps.{AscL, keys};
ghost use Rattle.marks.specs.Marked.{Answered, Marking, Marks, Picks, ending};
ghost use Rattle.marks.specs.Standing.{Standing, words};

use crate::gather::{CANDIDATES, ROOM, gather};
use crate::lists::Statuses;
use crate::run::{begin, mark_all};
use sizes::{CORNERS, POINTS, SHIFT};
use table::copy::copy;

const MOST_SHIFT: u64 = SHIFT as u64;

// How many have a status.
fn count(moods: &[u64]) -> usize
    ensures { (f : ℕ → Standing) (K : List ℕ) → moods.now ≡ words f K → result ≡ length (ending f K) }
{
    moods.iter().filter(|word| *word % 16 != 0).count()
}

// Lists those that have a status.
fn pick(candidates: &[u64], moods: &[u64], out: &mut [u64], told: &mut [u64]) -> usize
    requires { length candidates.now ≡ length moods.now }
    ensures { Picks candidates.now moods.now out.old out.new told.old told.new result }
{
    let mut n = 0;
    for (k, word) in candidates.iter().zip(moods) {
        if *word % 16 != 0 && n < out.len() && n < told.len() {
            out[n] = *k;
            told[n] = *word;
            n += 1;
        }
    }
    n
}

// The marks over the candidates, whose words are in `moods`.
fn mark_keys(
    shift: u64,
    points: Statuses,
    corners: Statuses,
    candidates: &[u64],
    moods: &mut [u64],
    out: &mut [u64],
    told: &mut [u64],
) -> Option<usize>
    requires { (shift ≤ max_shift) × (length points.cells.now ≤ length points.statuses.now) × (length points.cells.now ≤ max_points)
        × (length corners.cells.now ≤ length corners.statuses.now) × (length corners.cells.now ≤ need_corners) × (length candidates.now ≡ length moods.old) }
    ensures { (ps : Points) (changed : List (ℕ × Bits))
        → Marking shift ps changed points.entry.cells.now points.entry.statuses.now corners.entry.cells.now corners.entry.statuses.now
        → max_points ≤ length out.old → max_points ≤ length told.old
        → AscL 0 candidates.now → candidates.now ≡ stand (marks shift changed) (keys ps)
        → Answered shift ps changed out.old out.new told.old told.new result }
{
    begin(points, candidates, moods);
    mark_all(candidates, moods, corners, shift);
    if POINTS < count(moods) {
        return None;
    }
    Some(pick(candidates, moods, out, told))
}

// Lists the points that there are in the end, each with its word (`Mood`), and returns how many they are; None, and
// nothing is written, where there are more than POINTS.
pub fn mark_points(
    shift: u64,
    points: Statuses,
    corners: Statuses,
    out: &mut [u64],
    told: &mut [u64],
) -> Option<usize>
    ensures { Marks shift points.entry.cells.now points.entry.statuses.now corners.entry.cells.now corners.entry.statuses.now
        out.old out.new told.old told.new result }
{
    if MOST_SHIFT < shift || POINTS < points.cells.len() || CORNERS < corners.cells.len() {
        return None;
    }
    if points.statuses.len() < points.cells.len() || corners.statuses.len() < corners.cells.len() {
        return None;
    }
    let mut candidates = [0u64; ROOM];
    copy(points.cells, &mut candidates[..]);
    let n = gather(&mut candidates[..], points.cells.len(), corners, shift);
    if CANDIDATES < n {
        return None;
    }
    let mut moods = [0u64; ROOM];
    mark_keys(
        shift,
        points,
        corners,
        &candidates[..n],
        &mut moods[..n],
        out,
        told,
    )
}
