//! Where entries of names stand.

/// Where an entry stands.
#[derive(Clone, Copy)]
pub struct Occurrence {
    /// Counted from 1.
    pub object: u32,
    pub entry: u32,
}
