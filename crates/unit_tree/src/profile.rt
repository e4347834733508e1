//! What the bytes that are read may be.

/// Whose bytes are read.
#[derive(Clone, Copy)]
pub enum Profile {
    /// An object's, as a compiler writes it. A section offset may lead to no table or list that is read.
    Input,
    /// Those of an image that was written. Such an offset is `BadOutput` at its value.
    Output,
}
