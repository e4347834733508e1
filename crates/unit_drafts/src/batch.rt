//! Units that are drafted beside each other.

ghost use Rattle.std.specs.Prelude.{◌≤◌};

use dwarf_types::{Analysis, Shape};

/// Units of a shape that are drafted beside each other, from one up to another, by the analyses that are left.
#[derive(Drop)]
pub(crate) struct Batch<'a> {
    pub left: &'a [Analysis],
    pub shape: &'a Shape,
    pub first: u32,
    pub end: u32,
    ghost order: { first ≤ end },
}
