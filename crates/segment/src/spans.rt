// Which columns and rows lie so far aside of a segment that no cell there is near. Each bound is a
// guess, of which nothing is promised, until the near test's own steps are seen to hold there; further
// out they hold the more, since every step is monotone.
ghost use Rattle.std.specs.Prelude.{◌≡◌, ◌+◌, ◌-◌, ◌<◌, true, ◌&&◌, nat_le, nat_lt};
ghost use Rattle.model.specs.Cell.{W};
ghost use Rattle.plane.specs.Edge.{edge_of};
ghost use Rattle.segment.specs.Spans.{Above, Below, IsSpan, Small, SmallLine, Wide, down, up};

use crate::measured::Measured;
use crate::near::Proximity;
use plane::cell::begins;
use std::num::wrapping_sub_u64;

// The columns, or rows, that are to be looked at, both ends included.
#[derive(Clone, Copy)]
pub(crate) struct Span {
    pub(crate) low: u32,
    pub(crate) high: u32,
}

// All of them.
pub(crate) const ALL: Span = Span {
    low: 0,
    high: u32::MAX,
};

// Of size 2 ^ 100 at most, so that nothing overflows.
fn small(x: f64) -> bool
    ensures { result ≡ true → Small x }
{
    -1267650600228229401496703205376.0 <= x && x <= 1267650600228229401496703205376.0
}

pub(crate) fn small_line(m: Measured) -> bool
    ensures { result ≡ true → SmallLine m }
{
    let s = m.segment;
    let a = s.p0;
    let b = s.p1;
    let u = m.unit;
    small(a.x)
        && small(a.y)
        && small(b.x)
        && small(b.y)
        && small(u.x)
        && small(u.y)
        && small(m.length)
}

// Whether a point that is `side` away along an axis is too far.
pub(crate) fn wide(g: Proximity, side: f64) -> bool
    ensures { result ≡ true → Wide g side }
{
    0.0 <= side
        && g.close <= side * side
        && g.far <= side * side
        && 0.0 <= g.size
        && g.size <= 1267650600228229401496703205376.0
}

// This and `first` stay apart: they differ in three comparisons, two signs and the end where each stops.
// The last column to look at, for ends at a and b: x is where the next one begins.
fn last(side: f64, a: f64, b: f64, drift: f64, size: f64) -> u32
    ensures { result < 4294967295 → Above side a b drift (edge_of size (result + 1)) }
{
    let n = ieee::whole::column_of((ieee::pick::max(a, b) + side) / size);
    if n < 4294967294 {
        let here = n + 1;
        let x = begins((here + 1) as u32, size);
        if side <= x - a && side <= x - b && side <= x - a - drift {
            return here as u32;
        }
    }
    4294967295
}

// The first column to look at: x is where the one before begins.
fn first(side: f64, a: f64, b: f64, drift: f64, size: f64) -> u32
    ensures { (0 < result → Below side a b drift (edge_of size (result - 1))) × (result < W) }
{
    let n = ieee::whole::column_of((ieee::pick::min(a, b) - side) / size);
    if 0 < n {
        let x = begins((n - 1) as u32, size);
        if x - a <= -side && x - b <= -side && x - a - drift <= -side {
            return n as u32;
        }
    }
    0
}

pub(crate) fn span_of(side: f64, a: f64, b: f64, u: f64, length: f64, size: f64) -> Span
    ensures { IsSpan side a b u length size result }
{
    // how far the segment goes from its first end along the axis: up, or down
    let along = u * length;
    let rise = if 0.0 < u { along } else { 0.0 };
    let fall = if u < 0.0 { along } else { 0.0 };
    Span {
        low: first(side, a, b, fall, size),
        high: last(side, a, b, rise, size),
    }
}

// The top bit, where n is not in the span: a difference below zero has it. So one branch serves for four
// tests, of which none can be predicted.
#[tactic(auto, using(crate::proofs::SpanLaws::wrapped_sign, crate::proofs::SpanLaws::or_sign))]
pub(crate) fn outside(n: u32, low: u32, high: u32) -> u64
    ensures { nat_lt result 9223372036854775808 ≡ (nat_le low n && nat_le n high) }
{
    wrapping_sub_u64(n as u64, low as u64) | wrapping_sub_u64(high as u64, n as u64)
}
