//! Values that are put into entries: as a reader finds them, and as they are understood.

use crate::address::{Place, Span};
use crate::seen::{LocationsRef, OpsRef};

/// A value as a reader finds it, by the class of its form.
#[derive(Clone, Copy)]
pub enum RawValue<'a> {
    /// Class address: the stored number, which no relocation has changed.
    Address(u64),
    /// Class string, without the zero byte that ends it, and if it is there its place among the texts of the sections,
    /// those of `__debug_str` and behind them those of `__debug_line_str`. The place helps to keep it without a copy, and
    /// means nothing more.
    Text { bytes: &'a [u8], place: Option<u32> },
    /// Classes constant and flag, up to 64 bits.
    Number(u64),
    /// A constant of 16 bytes, the lowest first.
    Wide(&'a [u8]),
    /// Classes block and exprloc: the bytes behind the length.
    Block(&'a [u8]),
    /// Class reference: the place in `__debug_info` of the entry to which it leads.
    Ref(u32),
    /// Classes reference, lineptr, loclist and rnglist: the stored number.
    Offset(u64),
}

/// A value that is understood.
#[derive(Drop)]
pub enum NewValue<'a> {
    /// Class address.
    Address(Place),
    /// Class exprloc: the operations.
    Expr(OpsRef<'a>),
    /// Class reference: the number of the entry to which it leads.
    Ref(u32),
    /// Class rnglist: the addresses in the linked program.
    Ranges(&'a [Span]),
    /// Class loclist: the locations, item by item.
    Locations(LocationsRef<'a>),
    /// Class lineptr, at a unit's root: the unit has a line table.
    Lines,
}
