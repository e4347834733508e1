//! The roots of an object: linked code, linked data, and constants outside of functions.

ghost use Rattle.std.specs.Prelude.{◌≡◌, ◌≤◌, ◌<◌, ◌^◌, ◌↔◌, ℕ, length, IfOk};
ghost use Rattle.std.specs.List.{Contains};
ghost use Rattle.std.specs.Option.{ForSome};
ghost use Rattle.dwarf_types.specs.Live.{IsRoot};
ghost use Rattle.dwarf_types.specs.Tree.{ParentsStandBefore};
ghost use Rattle.liveness.specs.Roots.{TellsInside, is_below_subprogram, is_constant, is_linked, is_root};

use crate::moves::{location_moves, low_pc_moves};
use ds_base::dwarf::{DW_AT_const_value, DW_TAG_label, DW_TAG_subprogram, DW_TAG_variable};
use ds_base::{BitRow, NoMemory};
use dwarf_types::{Entries, EntryRef};
use std::alloc::Global;

/// The numbers of the roots.
pub(crate) fn roots_of(alloc: Global, entries: &Entries) -> Result<Vec<u32>, NoMemory>
    requires few { length entries.now ≤ 2 ^ 24 }
    requires parents { ParentsStandBefore entries.now }
    ensures { IfOk result (λ roots. (k : ℕ) → Contains roots.items k ↔ IsRoot entries.now k) }
{
    let inside = in_subprograms(alloc, entries)?;
    let mut roots = Vec::new(alloc);
    for i in 0..entries.len() {
        if is_root(&entries.entry(i), inside.get(i as u32)) {
            roots.push(i as u32)?;
        }
    }
    Ok(roots)
}

/// Of each entry, whether a subprogram stands above it.
fn in_subprograms(alloc: Global, entries: &Entries) -> Result<BitRow, NoMemory>
    requires few { length entries.now ≤ 2 ^ 24 }
    requires parents { ParentsStandBefore entries.now }
    ensures { IfOk result (λ row. TellsInside entries.now row (length entries.now)) }
{
    let mut inside = BitRow::new(alloc, entries.len() as u32)?;
    for i in 0..entries.len() {
        if is_below_subprogram(entries, &inside, entries.entry(i).parent()) {
            inside.set(i as u32);
        }
    }
    Ok(inside)
}

/// Whether a subprogram is the parent, or stands above it.
fn is_below_subprogram(entries: &Entries, inside: &BitRow, parent: Option<u32>) -> bool
    requires parent { ForSome parent (λ p. p < length entries.now) }
    requires len { length inside.now ≡ length entries.now }
    ensures { result ≡ is_below_subprogram entries.now inside.now parent }
{
    match parent {
        Some(p) => entries.entry(p as usize).tag() == DW_TAG_subprogram || inside.get(p),
        None => false,
    }
}

/// Whether an entry is a root, where a subprogram stands above it or not.
fn is_root(entry: &EntryRef, inside: bool) -> bool
    ensures { result ≡ is_root entry.now inside }
{
    is_linked(entry) || (is_constant(entry) && !inside)
}

/// Whether an entry is code or data that was linked.
fn is_linked(entry: &EntryRef) -> bool
    ensures { result ≡ is_linked entry.now }
{
    match entry.tag() {
        DW_TAG_subprogram | DW_TAG_label => low_pc_moves(entry),
        DW_TAG_variable => location_moves(entry),
        _ => false,
    }
}

/// Whether an entry is a variable that is a constant.
fn is_constant(entry: &EntryRef) -> bool
    ensures { result ≡ is_constant entry.now }
{
    entry.tag() == DW_TAG_variable && entry.find(DW_AT_const_value).is_some()
}
