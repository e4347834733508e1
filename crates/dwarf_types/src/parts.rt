//! Expressions as they are written (DWARF 4, section 7.7.1): stretches of bytes, and what depends on
//! where entries are placed.

use ds_base::{Bytes, List};

/// A part of an expression that stands inside an entry value.
#[derive(Drop)]
pub enum PlainPart {
    /// Operations, byte for byte.
    Plain(Bytes),
    /// An operation that names a base type.
    Typed {
        /// The `DW_OP` number.
        code: u8,
        /// Its operands before the base type.
        before: Bytes,
        /// The base type's number among the nodes of the unit, counted from 0; none is the generic
        /// type, spelled 0.
        base: Option<u32>,
        /// Its operands behind the base type.
        after: Bytes,
    },
}

/// A part of an expression.
#[derive(Drop)]
pub enum ExprPart {
    /// Operations, byte for byte.
    Plain(Bytes),
    /// An operation that names a base type; its fields are those of [`PlainPart`].
    Typed {
        code: u8,
        before: Bytes,
        base: Option<u32>,
        after: Bytes,
    },
    /// An entry value (DWARF 5, section 2.5.1.7): its `DW_OP` number, and the expression inside.
    Nested {
        code: u8,
        parts: List<PlainPart>,
    },
}
