// What may be asked of a map: is a cell occupied; the lists of cells, corner cells, points and pairs; the question of four shapes; what they have in common.
#![tactic(auto)]

pub mod ask;
pub mod cells;
pub mod judge;
pub mod keep;
mod list;
pub mod pairs;
pub mod points;
