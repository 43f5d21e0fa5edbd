// The pairs of a map, each once, lesser cell first, ascending. Tables and columns come one by one, as C lends them: each call takes
// only those that it needs.
ghost use Rattle.std.specs.Prelude.{◌≡◌, ◌≤◌, ◌<◌, get_or, length};
ghost use Rattle.model.specs.Limits.{max_points, need_pairs};
ghost use Rattle.held.specs.Pairs.{pair_places};
ghost use Rattle.answers.specs.PairLists.{AllPairs, OpenPairs};
ghost use Rattle.answers.specs.Told.{counted};
ghost use Rattle.answers.specs.Walks.{AllListed, OpenListed, OpenRowListed, RowFits, RowListed};

use crate::judge::refuse;
use held::map::Map;
use limits::dues::Due;
use limits::lent::is_short;
use limits::refusal::Refusal;
use sizes::{LISTED, PAIRS, POINTS};

// The pairs of the i-th point with those after it, after the `count` pairs that are listed already. Rows go by places: the pair of two
// points is at 64 * i + j. Its number is that of C's table: 0, 1 for an open one, or a key.
fn list_row(
    points: &[u64],
    pairs: &[u64],
    i: usize,
    lesser: &mut [u64],
    greater: &mut [u64],
    blocks: &mut [u64],
    count: usize,
) -> usize
    requires { (i < length points.now) × (length points.now ≤ max_points) × (pair_places ≤ length pairs.now)
        × RowFits points.now i count lesser.old × RowFits points.now i count greater.old × RowFits points.now i count blocks.old }
    ensures { RowListed points.now pairs.now i count result lesser.old lesser.new
        greater.old greater.new blocks.old blocks.new }
{
    let mut n = count;
    for j in i + 1..points.len() {
        let code = pairs[POINTS * i + j];
        if code != 0 {
            lesser[n] = points[i];
            greater[n] = points[j];
            blocks[n] = if code == 1 { 0 } else { code };
            n += 1;
        }
    }
    n
}

// All pairs, row by row.
fn list_all(
    points: &[u64],
    pairs: &[u64],
    lesser: &mut [u64],
    greater: &mut [u64],
    blocks: &mut [u64],
) -> usize
    requires { (length points.now ≤ max_points) × (pair_places ≤ length pairs.now)
        × (need_pairs ≤ length lesser.old) × (need_pairs ≤ length greater.old) × (need_pairs ≤ length blocks.old) }
    ensures { AllListed points.now pairs.now result lesser.old lesser.new
        greater.old greater.new blocks.old blocks.new }
{
    let mut n = 0;
    for i in 0..points.len() {
        n = list_row(points, pairs, i, lesser, greater, blocks, n);
    }
    n
}

// All pairs with their blockers (0 for none, or a key).
pub fn all_pairs(
    map: Map,
    points: &[u64],
    pairs: &[u64],
    lesser: &mut [u64],
    greater: &mut [u64],
    blocks: &mut [u64],
) -> Result<usize, Refusal>
    ensures { AllPairs map points.now pairs.now lesser.old greater.old blocks.old
        lesser.new greater.new blocks.new (counted result) }
{
    let tables = [(points.len(), POINTS), (pairs.len(), PAIRS)];
    let columns = [
        (lesser.len(), LISTED),
        (greater.len(), LISTED),
        (blocks.len(), LISTED),
    ];
    let short = is_short(&tables) || is_short(&columns);
    refuse(short, map, Due::none())?;
    let n = map.points;
    Ok(list_all(&points[..n], pairs, lesser, greater, blocks))
}

// The open pairs of the i-th point, which nothing blocks, with those after it. Apart from `list_row`: a walk of both would take
// two or three columns through a trait with laws, which is no plainer than a loop with its own test and its own stores.
fn open_row(
    points: &[u64],
    blockers: &[u64],
    pairs: &[u64],
    i: usize,
    lesser: &mut [u64],
    greater: &mut [u64],
    count: usize,
) -> usize
    requires { (i < length points.now) × (length points.now ≤ max_points) × (pair_places ≤ length pairs.now)
        × (length points.now ≤ length blockers.now) × (get_or blockers.now i 0 ≡ 0)
        × RowFits points.now i count lesser.old × RowFits points.now i count greater.old }
    ensures { OpenRowListed points.now blockers.now pairs.now i count result
        lesser.old lesser.new greater.old greater.new }
{
    let mut n = count;
    for j in i + 1..points.len() {
        if pairs[POINTS * i + j] == 1 && blockers[j] == 0 {
            lesser[n] = points[i];
            greater[n] = points[j];
            n += 1;
        }
    }
    n
}

// The open pairs, row by row, but for the rows of blocked points.
fn list_open(
    points: &[u64],
    blockers: &[u64],
    pairs: &[u64],
    lesser: &mut [u64],
    greater: &mut [u64],
) -> usize
    requires { (length points.now ≤ max_points) × (length points.now ≤ length blockers.now) × (pair_places ≤ length pairs.now)
        × (need_pairs ≤ length lesser.old) × (need_pairs ≤ length greater.old) }
    ensures { OpenListed points.now blockers.now pairs.now result
        lesser.old lesser.new greater.old greater.new }
{
    let mut n = 0;
    for i in 0..points.len() {
        if blockers[i] == 0 {
            n = open_row(points, blockers, pairs, i, lesser, greater, n);
        }
    }
    n
}

// The pairs that nothing blocks, nor either of their ends (`iter_edges`).
pub fn open_pairs(
    map: Map,
    points: &[u64],
    blockers: &[u64],
    pairs: &[u64],
    lesser: &mut [u64],
    greater: &mut [u64],
) -> Result<usize, Refusal>
    ensures { OpenPairs map points.now blockers.now pairs.now lesser.old greater.old
        lesser.new greater.new (counted result) }
{
    let tables = [
        (points.len(), POINTS),
        (blockers.len(), POINTS),
        (pairs.len(), PAIRS),
    ];
    let columns = [(lesser.len(), LISTED), (greater.len(), LISTED)];
    let short = is_short(&tables) || is_short(&columns);
    refuse(short, map, Due::none())?;
    let n = map.points;
    Ok(list_open(&points[..n], &blockers[..n], pairs, lesser, greater))
}
