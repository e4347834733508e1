//! Items with their results.

/// An item with its result.
#[derive(Drop)]
pub struct Done<O> {
    pub item: u32,
    pub out: O,
}
