//! Every limit by one name, for code that compares with it or has an array of that length. The model has the same numbers (crates/model/specs/Limits.antt):
//! contracts are stated with those, so code that compares with another number does not meet its contract. docs/RULES.md, 3, says what each means.
#![tactic(auto)]

// Occupied cells of a map, and places of the table of cells.
pub const CELLS: usize = 1024;

// Points of a map, and places of the tables of points, statuses and blockers.
pub const POINTS: usize = 64;

// Places of the table of pairs: a row of POINTS for each point.
pub const PAIRS: usize = POINTS * POINTS;

// Pairs that a list of pairs can have: each two of POINTS once.
pub const LISTED: usize = POINTS * (POINTS - 1) / 2;

// Entries of a batch, and so confirmed changes.
pub const BATCH: usize = 256;

// Numbers of a batch: column, row and occupied for each entry.
pub const NUMBERS: usize = 3 * BATCH;

// Corner changes of a batch: at most the nine cells around each entry.
pub const CORNERS: usize = 9 * BATCH;

// The largest and the least column or row of a batch.
pub const MOST_COORDINATE: i64 = 1048576;

pub const LEAST_COORDINATE: i64 = -MOST_COORDINATE;

// How much further out visibility and neighbours may be asked, and the largest and the least column or row there.
pub const BEYOND: i64 = 64;

pub const MOST_ASKED: i64 = MOST_COORDINATE + BEYOND;

pub const LEAST_ASKED: i64 = -MOST_ASKED;

// The largest shift of a radius.
pub const SHIFT: i64 = 64;

// Keys of a column: from a cell's key to that of the next cell in its row.
pub const COLUMN: u64 = 4294967296;

// From a cell's key to the key two, three and four columns on.
pub const TWO_COLUMNS: u64 = 2 * COLUMN;

pub const THREE_COLUMNS: u64 = 3 * COLUMN;

pub const FOUR_COLUMNS: u64 = 4 * COLUMN;

// Bytes of a field of a map file that has most: a tag, a length of two bytes and BATCH entries of nine bytes.
pub const WINDOW: usize = 3 + 9 * BATCH;

// Bytes that a listing's first line may need, any other line, and the whole listing.
pub const FIRST_LINE: usize = 256;

pub const LINE: usize = 80;

pub const LISTING: usize = FIRST_LINE + LINE * (POINTS + LISTED);
