// Which cells a point may see (RULES 1.7).
ghost use Rattle.std.specs.Prelude.{◌≡◌};
ghost use Rattle.corner.specs.Weights.{dir};
ghost use Rattle.model.specs.Corner.{Bits, number, quadrant, sees};

use corner::bits::{Corner, CornerStatus};
use sizes::COLUMN;

// The corner of the signs of q - p, where neither is zero.
#[tactic(auto, unfolding(model::specs::Corner::quadrant))]
fn quadrant(p: u64, q: u64) -> Corner
    ensures { dir result ≡ quadrant p q }
{
    match (p / COLUMN < q / COLUMN, p % COLUMN < q % COLUMN) {
        (true, true) => Corner::Northeast,
        (true, false) => Corner::Southeast,
        (false, true) => Corner::Northwest,
        (false, false) => Corner::Southwest,
    }
}

// Whether p lies in the visible quadrant of q, which has this status. A status is a byte here and in `marks`, as C's tables hold it.
#[tactic(auto, unfolding(model::specs::Corner::sees))]
pub fn sees(p: u64, q: u64, status: u8) -> bool
    ensures { (b : Bits) → status ≡ number b → result ≡ sees p q b }
{
    if p / COLUMN == q / COLUMN || p % COLUMN == q % COLUMN {
        return true;
    }
    let bits = CornerStatus { bits: status };
    !bits.get(quadrant(p, q))
}
