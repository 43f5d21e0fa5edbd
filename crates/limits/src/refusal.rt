// The refusals by name (RULES 4.1).
ghost use Rattle.std.specs.Prelude.{◌≡◌};
ghost use Rattle.limits.specs.Refusals.{number};

// Each with its number: the cell size, the radius; a batch that is too long, that does not ascend, or that leaves the map; too many cells, too many
// points; a question's number; a lent table that is short; a map file that is malformed.
#[derive(Clone, Copy, Debug, PartialEq, Eq)]
pub enum Refusal {
    CellSize = 1,
    Radius = 2,
    LongBatch = 3,
    Disorder = 4,
    OffMap = 5,
    ManyCells = 6,
    ManyPoints = 7,
    BadQuestion = 8,
    ShortTable = 9,
    BadFile = 10,
}

impl Refusal {
    // As the border and a listing have it.
    pub fn number(self) -> u8
        ensures { result ≡ number self }
    {
        self as u8
    }
}
