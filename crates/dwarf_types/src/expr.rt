//! Expressions: operations, cut out of their bytes (DWARF 4, section 7.7.1).

use crate::address::Place;
use ds_base::{Bytes, List};

/// The base type that an operation names.
#[derive(Clone, Copy)]
pub enum Base {
    /// The generic type, spelled 0.
    Generic,
    /// A base type's entry: by its place in its unit as it is read, counted in bytes from the unit's first,
    /// and by its number among the object's entries in an analysis.
    Entry(u32),
}

/// An operation of an expression that stands inside an entry value.
#[derive(Drop)]
pub struct PlainOp {
    /// The `DW_OP` number.
    pub code: u8,
    /// All bytes of the operation as they were read, the code first.
    pub bytes: Bytes,
    /// What its operand means, where that is an address.
    pub address: Option<Place>,
    /// The base type that it names, where it names one.
    pub base: Option<Base>,
}

/// An operation of an expression.
#[derive(Drop)]
pub struct Op {
    /// The `DW_OP` number.
    pub code: u8,
    /// All bytes of the operation as they were read, the code first.
    pub bytes: Bytes,
    /// What its operand means, where that is an address.
    pub address: Option<Place>,
    /// The base type that it names, where it names one.
    pub base: Option<Base>,
    /// The operations of the expression inside, where it is an entry value; else none.
    pub inner: List<PlainOp>,
}
