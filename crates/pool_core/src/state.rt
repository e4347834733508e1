//! The words of a pool, and a step on them.

use ds_base::List;

/// The words of a pool, for each cell two: `cells` has 0 for an empty cell and `x + 1` for the name x, `least` the least
/// number that was brought to the cell, or 2^64 - 1 where none was.
#[derive(Drop)]
pub struct PoolState {
    pub cells: List<u64>,
    pub least: List<u64>,
}

/// What a seat does to one word. The seat is told, and changes nothing.
#[derive(Clone, Copy)]
pub enum Step {
    /// The name is put into the cell where that is empty. Otherwise nothing changes.
    Intern { seat: u32, cell: u32, name: u32 },
    /// The least word of the cell becomes the minimum of itself and the number.
    Lower { seat: u32, cell: u32, number: u64 },
}
