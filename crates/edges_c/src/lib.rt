// The points and pairs of a map under C names. Each function is the call of that name, with its contract, and
// its answer as C has it.
#![tactic(auto)]

ghost use Rattle.answers.specs.PairLists.{AllPairs, AllPoints, FreePoints, OpenPairs};

use answers::judge::Count;
use answers::pairs::{all_pairs, open_pairs};
use answers::points::{all_points, free_points};
use held::map::Map;

// All points, their statuses, and their blockers.
#[unsafe(no_mangle)]
pub extern "C" fn runcedau_all_points(
    map: Map,
    points: &[u64],
    statuses: &[u8],
    blockers: &[u64],
    out: &mut [u64],
    bits: &mut [u8],
    blocks: &mut [u64],
) -> Count
    ensures { AllPoints map points.now statuses.now blockers.now out.old bits.old
        blocks.old out.new bits.new blocks.new result }
{
    Count::from(all_points(map, points, statuses, blockers, out, bits, blocks))
}

// The points that nothing blocks.
#[unsafe(no_mangle)]
pub extern "C" fn runcedau_free_points(
    map: Map,
    points: &[u64],
    blockers: &[u64],
    out: &mut [u64],
) -> Count
    ensures { FreePoints map points.now blockers.now out.old out.new result }
{
    Count::from(free_points(map, points, blockers, out))
}

// All pairs, lesser cell first, and their blockers.
#[unsafe(no_mangle)]
pub extern "C" fn runcedau_all_pairs(
    map: Map,
    points: &[u64],
    pairs: &[u64],
    lesser: &mut [u64],
    greater: &mut [u64],
    blocks: &mut [u64],
) -> Count
    ensures { AllPairs map points.now pairs.now lesser.old greater.old blocks.old
        lesser.new greater.new blocks.new result }
{
    Count::from(all_pairs(map, points, pairs, lesser, greater, blocks))
}

// The pairs that nothing blocks, nor either of their ends.
#[unsafe(no_mangle)]
pub extern "C" fn runcedau_open_pairs(
    map: Map,
    points: &[u64],
    blockers: &[u64],
    pairs: &[u64],
    lesser: &mut [u64],
    greater: &mut [u64],
) -> Count
    ensures { OpenPairs map points.now blockers.now pairs.now lesser.old greater.old
        lesser.new greater.new result }
{
    Count::from(open_pairs(map, points, blockers, pairs, lesser, greater))
}
