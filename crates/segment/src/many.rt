// The near test of one segment against many cells: what is the same for all of them is worked out once,
// and a cell that lies far aside is answered by comparing whole numbers.
ghost use Rattle.std.specs.Prelude.{◌≡◌};
ghost use Rattle.segment.specs.Many.{Ready, prepared};

use crate::line::LineSegment;
use crate::measured::Measured;
use crate::near::Proximity;
use crate::spans;
use crate::spans::Span;
use sizes::COLUMN;

#[derive(Clone, Copy)]
pub struct NearTest {
    pub(crate) line: Measured,
    pub(crate) proximity: Proximity,
    pub(crate) columns: Span,
    pub(crate) rows: Span,
}

impl NearTest {
    // For as many cells: for one or two the spans are not worth their while. A little more than the limit is needed aside,
    // since the limit's own square is rounded.
    #[tactic(auto, using(crate::proofs::SpanLaws::nothing_near))]
    pub fn new(s: LineSegment, proximity: Proximity, cells: usize) -> Self
        ensures { Ready s proximity result }
    {
        let line = s.measured();
        let side = proximity.limit * 1.000001;
        if 2 < cells && spans::small_line(line) && spans::wide(proximity, side) {
            let ends = line.segment;
            let a = ends.p0;
            let b = ends.p1;
            let u = line.unit;
            return NearTest {
                line,
                proximity,
                columns: spans::span_of(side, a.x, b.x, u.x, line.length, proximity.size),
                rows: spans::span_of(side, a.y, b.y, u.y, line.length, proximity.size),
            };
        }
        NearTest {
            line,
            proximity,
            columns: spans::ALL,
            rows: spans::ALL,
        }
    }

    #[tactic(auto, using(crate::proofs::SpanLaws::or_sign))]
    pub fn passes(self, cell: u64) -> bool
        ensures { result ≡ prepared self cell }
    {
        let x = (cell / COLUMN) as u32;
        let y = (cell % COLUMN) as u32;
        let out = spans::outside(x, self.columns.low, self.columns.high)
            | spans::outside(y, self.rows.low, self.rows.high);
        out < 9223372036854775808 && self.line.passes_near(self.proximity, cell)
    }
}
