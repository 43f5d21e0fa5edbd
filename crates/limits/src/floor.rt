// The floor: a cell size, and how many cells are occupied. The cells themselves are in a lent table, in the first
// 1,024 places of it.
#[derive(Clone, Copy)]
pub struct Floor {
    pub size: f64,
    pub cells: usize,
}
