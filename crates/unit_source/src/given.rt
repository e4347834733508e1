//! Attributes of output entries, which borrow what is long.

use crate::cow_list::CowList;
use dwarf_types::{ExprPart, OutLocation, Span, Target};

/// An attribute of an output entry, which borrows what is long.
#[derive(Drop)]
pub struct OutAttrRef<'a> {
    /// The `DW_AT` number.
    pub name: u16,
    pub value: OutValueRef<'a>,
}

/// The value of an output attribute, by the class of its form (DWARF 5, section 7.5.5). It means what the variant of its
/// name means of `OutValue`.
#[derive(Drop)]
pub enum OutValueRef<'a> {
    /// Class address: an address in the linked program.
    Address(u64),
    /// Class string: a text, without the zero byte that ends it.
    Text(&'a [u8]),
    /// Classes constant and flag, up to 64 bits: the bits, and the `DW_FORM` number in which they are written.
    Number { form: u16, bits: u64 },
    /// A constant of 16 bytes, the lowest first.
    Wide(&'a [u8]),
    /// Class block: the bytes behind the length, and the `DW_FORM` number in which they are written.
    Block { form: u16, bytes: &'a [u8] },
    /// Class exprloc: the expression, part by part.
    Expr(CowList<'a, ExprPart>),
    /// Class reference: the entry to which it leads.
    Ref(Target),
    /// Class rnglist: the addresses in the linked program.
    Ranges(&'a [Span]),
    /// Class loclist: the locations, item by item.
    Locations(CowList<'a, OutLocation>),
    /// Class lineptr, at a unit's root: the unit's line table.
    Lines,
}
