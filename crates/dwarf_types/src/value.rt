//! Values of attributes.

use crate::address::{Place, Span};
use crate::expr::Op;
use crate::lists::Location;
use ds_base::{Bytes, List};

/// The value of an attribute, by the class of its form (DWARF 5, section 7.5.5).
///
/// This is what contracts speak of. Values stand in flat columns, and are seen there as `ValueRef`.
#[derive(Drop)]
pub enum Value {
    /// Class address.
    Address(Place),
    /// Class string, without the zero byte that ends it.
    Text(Bytes),
    /// Classes constant and flag, up to 64 bits: the bits, and the form in which they stood. A
    /// constant with a sign is its two's complement in 64 bits.
    Number { form: u16, bits: u64 },
    /// A constant of 16 bytes, the lowest first.
    Wide(Bytes),
    /// Classes block and exprloc, as they are read: the bytes behind the length, and the form.
    Block { form: u16, bytes: Bytes },
    /// Class exprloc: the operations.
    Expr(List<Op>),
    /// Class reference: the entry to which it leads, by its place in `__debug_info` as it is read, and by
    /// its number among the object's entries in an analysis.
    Ref(u32),
    /// Class rnglist: the addresses in the linked program.
    Ranges(List<Span>),
    /// Class loclist: the locations, item by item.
    Locations(List<Location>),
    /// Class lineptr, at a unit's root: the unit has a line table.
    Lines,
    /// Classes reference, lineptr, loclist and rnglist, as they are read: the stored number.
    Offset(u64),
}
