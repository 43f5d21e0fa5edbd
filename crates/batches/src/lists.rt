// What a batch changed, as lists.

// Confirmed changes, as they are listed: each cell with 1 for occupied or 0 for free. Two lists, and not one of pairs: C lends them so.
#[derive(Clone, Copy)]
pub struct Changes<'a> {
    pub cells: &'a [u64],
    pub full: &'a [u8],
}

// Where a caller gets them: the confirmed changes, and the cells whose corners changed, each with its status.
#[derive(Drop)]
pub struct Outputs<'a> {
    pub confirmed: &'a mut [u64],
    pub full: &'a mut [u8],
    pub corners: &'a mut [u64],
    pub altered: &'a mut [u8],
}
