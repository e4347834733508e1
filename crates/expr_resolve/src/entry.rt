//! Entries of a unit's table of addresses, which operations name by their indices.

ghost use Rattle.std.specs.Prelude.{◌≡◌, ◌+◌, ◌^◌, ◌<◌, ◌≤◌, length, IfSome};
ghost use Rattle.expr_resolve.specs.Context.{context_in, names_in};
ghost use Rattle.expr_resolve.specs.Steps.{IsSoundContext};
ghost use Rattle.expr_resolve.specs.Expressions.{entry_address, entry_meant, entry_of, holding, index_in, is_lost, named_by, names_entry};

use crate::context::{ExprContext, ExprNames};
use crate::lookup::is_relocated;
use ds_base::dwarf::{DW_OP_addr, DW_OP_addrx, DW_OP_const8u, DW_OP_constx};
use dwarf_types::{Addr, Place};
use index_tables::{address_at, stored_address};
use moved_parts::place as place_of;
use reloc_table::resolve;

/// The place in `__debug_addr` of the entry that an operation of this code names, if it names one and that is there.
/// `address` is the index, as it was read.
pub(crate) fn find_entry(names: &ExprNames, code: u8, address: Option<Place>) -> Option<u32>
    requires small { length (names_in names.now).sections.addr < 2 ^ 32 }
    ensures is { result ≡ named_by (names_in names.now) code address }
    ensures inside { IfSome result (λ at. at + 8 ≤ length (names_in names.now).sections.addr) }
{
    if names_entry(code) {
        entry_at(names, address)
    } else {
        None
    }
}

/// Whether an operation of this code names an entry that is not there.
pub(crate) fn is_lost(names: &ExprNames, code: u8, address: Option<Place>) -> bool
    requires small { length (names_in names.now).sections.addr < 2 ^ 32 }
    ensures { result ≡ is_lost (names_in names.now) code address }
{
    names_entry(code) && entry_at(names, address).is_none()
}

/// Whether an operation of this code names an entry.
fn names_entry(code: u8) -> bool
    ensures { result ≡ names_entry code }
{
    code == DW_OP_addrx || code == DW_OP_constx
}

/// The place of the entry at an index.
fn entry_at(names: &ExprNames, address: Option<Place>) -> Option<u32>
    requires small { length (names_in names.now).sections.addr < 2 ^ 32 }
    ensures is { result ≡ entry_of (names_in names.now) address }
    ensures inside { IfSome result (λ at. at + 8 ≤ length (names_in names.now).sections.addr) }
{
    let Some(index) = index_of(address) else {
        return None;
    };
    match address_at(names.sections, names.addr_base, index) {
        Ok(at) => Some(at),
        Err(_) => None,
    }
}

/// The index, as it was read.
fn index_of(address: Option<Place>) -> Option<u64>
    ensures { result ≡ index_in address }
{
    let Some(place) = address else {
        return None;
    };
    match place.at {
        Addr::Fixed(index) => Some(index),
        _ => None,
    }
}

/// The code of the operation that holds the entry, in place of one of this code.
pub(crate) fn holding_code(code: u8) -> u8
    ensures { result ≡ holding code }
{
    if code == DW_OP_addrx {
        DW_OP_addr
    } else {
        DW_OP_const8u
    }
}

/// The address that an entry is, if it is one: that of `DW_OP_addrx` always, and that of `DW_OP_constx` where a relocation
/// stands at it.
pub(crate) fn entry_address(context: &ExprContext, code: u8, at: u32) -> Option<Place>
    requires sound { IsSoundContext (context_in context.now) }
    requires inside { at + 8 ≤ length context.now.sections.now.addr.now }
    ensures { result ≡ entry_address (context_in context.now) code at }
{
    if code == DW_OP_addrx || is_relocated(context.addresses, u64::from(at)) {
        Some(entry_place(context, at))
    } else {
        None
    }
}

/// What an entry means, and where that went.
fn entry_place(context: &ExprContext, at: u32) -> Place
    requires sound { IsSoundContext (context_in context.now) }
    requires inside { at + 8 ≤ length context.now.sections.now.addr.now }
    ensures { result ≡ entry_meant (context_in context.now) at }
{
    let stored = stored_address(context.sections.addr, at);
    place_of(
        context.map,
        resolve(context.addresses, context.image, at, stored),
    )
}
