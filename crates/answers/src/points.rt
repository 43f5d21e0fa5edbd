// The points of a map. Tables and columns come one by one, as C lends them: each call takes only those that it needs.
ghost use Rattle.std.specs.Prelude.{◌≡◌, ◌<◌, ◌≤◌, eqb, get_or, length};
ghost use Rattle.answers.specs.PairLists.{AllPoints, FreePoints};
ghost use Rattle.answers.specs.Told.{counted};
ghost use Rattle.answers.specs.Walks.{FreeListed};

use crate::judge::refuse;
use crate::keep::{Test, keep};
use crate::list::list;
use held::map::Map;
use limits::dues::Due;
use limits::lent::is_short;
use limits::refusal::Refusal;
use sizes::POINTS;

// All points, ascending, with their statuses and their blockers (0 for none, or a key).
pub fn all_points(
    map: Map,
    points: &[u64],
    statuses: &[u8],
    blockers: &[u64],
    out: &mut [u64],
    bits: &mut [u8],
    blocks: &mut [u64],
) -> Result<usize, Refusal>
    ensures { AllPoints map points.now statuses.now blockers.now out.old bits.old
        blocks.old out.new bits.new blocks.new (counted result) }
{
    let short = is_short(&[
        (points.len(), POINTS),
        (statuses.len(), POINTS),
        (blockers.len(), POINTS),
        (out.len(), POINTS),
        (bits.len(), POINTS),
        (blocks.len(), POINTS),
    ]);
    refuse(short, map, Due::none())?;
    let n = map.points;
    list(&points[..n], out);
    list(&statuses[..n], bits);
    list(&blockers[..n], blocks);
    Ok(n)
}

// Whether nothing blocks a point.
#[derive(Clone, Copy)]
struct Unblocked<'a> {
    blockers: &'a [u64],
}

impl Test for Unblocked<'_> {
    ghost says = { λ s i n x r. i < n → n ≤ length s.blockers.now → r ≡ eqb (get_or s.blockers.now i 0) 0 };

    fn keeps(&self, i: usize, n: usize, _x: u64) -> bool {
        i < n && n <= self.blockers.len() && self.blockers[i] == 0
    }
}

// Writes the points that nothing blocks to the front of `out`, and returns how many there are.
fn write_free(points: &[u64], blockers: &[u64], out: &mut [u64]) -> usize
    requires { (length points.now ≤ length blockers.now) × (length points.now ≤ length out.old) }
    ensures { FreeListed points.now blockers.now result out.old out.new }
{
    keep(points, out, Unblocked { blockers })
}

// The points that nothing blocks, ascending (`iter_points`).
pub fn free_points(
    map: Map,
    points: &[u64],
    blockers: &[u64],
    out: &mut [u64],
) -> Result<usize, Refusal>
    ensures { FreePoints map points.now blockers.now out.old out.new (counted result) }
{
    let short = is_short(&[
        (points.len(), POINTS),
        (blockers.len(), POINTS),
        (out.len(), POINTS),
    ]);
    refuse(short, map, Due::none())?;
    let n = map.points;
    Ok(write_free(&points[..n], &blockers[..n], out))
}
