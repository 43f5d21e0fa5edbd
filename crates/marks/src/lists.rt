// Lists side by side: the lent tables are so, and they are C's interface.

// Cells or points, each with its status.
#[derive(Clone, Copy)]
pub struct Statuses<'a> {
    pub cells: &'a [u64],
    pub statuses: &'a [u8],
}

// The points in the end, each with what is known of it, as a word (`Mood`).
#[derive(Clone, Copy)]
pub struct Moods<'a> {
    pub points: &'a [u64],
    pub words: &'a [u64],
}
