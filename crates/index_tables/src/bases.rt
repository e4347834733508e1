//! The bases of a unit.

ghost use Rattle.std.specs.Prelude.{◌≡◌};
ghost use Rattle.dwarf_types.specs.Seen.{value_seen};
ghost use Rattle.index_tables.specs.Bases.{base_in, base_said, bases_in};

use ds_base::dwarf::{
    DW_AT_addr_base, DW_AT_loclists_base, DW_AT_rnglists_base, DW_AT_str_offsets_base,
    DW_FORM_sec_offset,
};
use dwarf_types::{RawEntryRef, ValueRef, is_flag};

/// The base of a table of string offsets or of addresses where none is said: that behind the first header.
const TABLE_BASE: u64 = 8;

/// The base of lists where none is said: that behind the first header.
const LISTS_BASE: u64 = 12;

/// Where the tables begin to which the indices of a unit's values lead (DWARF 5, section 3.1.1).
#[derive(Clone, Copy)]
pub struct Bases {
    /// Of string offsets, in `__debug_str_offs`.
    pub texts: u64,
    /// Of addresses, in `__debug_addr`.
    pub addresses: u64,
    /// Of range lists, in `__debug_rnglists`.
    pub ranges: u64,
    /// Of location lists, in `__debug_loclists`.
    pub locations: u64,
}

/// The bases of the unit of a root.
pub fn bases_of(root: &RawEntryRef) -> Bases
    ensures { result ≡ bases_in root.now.attrs }
{
    Bases {
        texts: said(root, DW_AT_str_offsets_base, TABLE_BASE),
        addresses: said(root, DW_AT_addr_base, TABLE_BASE),
        ranges: said(root, DW_AT_rnglists_base, LISTS_BASE),
        locations: said(root, DW_AT_loclists_base, LISTS_BASE),
    }
}

/// The base that an attribute of a root says, or `none`.
fn said(root: &RawEntryRef, name: u16, none: u64) -> u64
    ensures { result ≡ base_said name none root.now.attrs }
{
    match root.find(name) {
        Some(attr) => base_of(none, attr.form, &attr.value),
        None => none,
    }
}

/// The base that a value of a form is, or `none`.
fn base_of(none: u64, form: u16, value: &ValueRef) -> u64
    ensures { result ≡ base_in none form (value_seen value.now) }
{
    match value {
        ValueRef::Offset(n) if form == DW_FORM_sec_offset => *n,
        ValueRef::Number { form, bits } if !is_flag(*form) => *bits,
        _ => none,
    }
}
