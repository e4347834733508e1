//! Range lists and location lists (DWARF 4, sections 2.17.3 and 2.6.2).

use crate::address::{Addr, Span};
use crate::expr::Op;
use ds_base::{Bytes, List};

/// An item of a range list as it is read, with its base applied: addresses from `low` up to `high`.
#[derive(Clone, Copy)]
pub struct RawSpan {
    pub low: Addr,
    pub high: Addr,
}

/// An item of a location list as it is read, with its base applied.
#[derive(Drop)]
pub struct RawLocation {
    pub span: RawSpan,
    /// The place of the item in its section.
    pub place: u64,
    /// The place of the first byte of its expression in the section.
    pub first: u64,
    /// The expression.
    pub bytes: Bytes,
}

/// Where an object is found while the program runs in a span of addresses.
#[derive(Drop)]
pub struct Location {
    pub span: Span,
    pub ops: List<Op>,
}
