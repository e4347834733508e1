//! Where a name was placed.

/// Where a name was placed.
#[derive(Clone, Copy, Debug, PartialEq, Eq)]
pub enum Placing {
    /// In this cell stands a name equal to it.
    Cell(u32),
    /// Other names stand in all cells that are probed for it.
    Crowded,
}
