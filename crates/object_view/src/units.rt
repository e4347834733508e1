//! What the values of units are understood by, and the base types of all.

ghost use Rattle.std.specs.Prelude.{◌≡◌, ◌<◌, ◌^◌, length, IfOk};
ghost use Rattle.std.specs.List.{All};
ghost use Rattle.object_view.specs.Ready.{HasRoot};
ghost use Rattle.object_view.specs.Roots.{IsBehindHeader};
ghost use Rattle.object_view.specs.Units;

use ds_base::dwarf::DW_TAG_base_type;
use ds_base::{List, NoMemory};
use dwarf_types::{InUnit, RawEntries};
use expr_resolve::BaseType;
use index_tables::bases_of;
use std::alloc::Global;
use unit_tree::header_size;

/// What the values of a unit are understood by.
#[derive(Clone, Copy)]
pub(crate) struct UnitContext {
    pub(crate) version: u16,
    /// The place of its first byte in `__debug_info`.
    pub(crate) start: u32,
    /// The place of its first address in `__debug_addr`.
    pub(crate) addr_base: u64,
}

/// What is made once of the units and entries of an object, so that a look-up is one by an index or by halves, and
/// references need none.
#[derive(Clone, Copy)]
pub(crate) struct Tables<'a> {
    /// The base types of the object, in the order of their places.
    pub(crate) types: &'a [BaseType],
    /// The number of the entry to which each reference leads, in document order.
    pub(crate) numbers: &'a [u32],
    /// Of each unit, what its values are understood by.
    pub(crate) units: &'a [UnitContext],
}

/// What is made once of units and their entries: all base types, and of each unit what its values are understood by.
pub(crate) fn made_once(
    alloc: Global,
    units: &[InUnit],
    entries: &RawEntries,
) -> Result<(List<BaseType>, List<UnitContext>), NoMemory>
    requires few { length entries.now < 2 ^ 32 }
    requires roots { All (HasRoot (length entries.now)) units.now }
    requires behind { All (IsBehindHeader entries.now) units.now }
    ensures types { IfOk result (λ made. made.0 ≡ Units.base_types entries.now) }
    ensures contexts { IfOk result (λ made. made.1 ≡ Units.contexts_of entries.now units.now) }
{
    let types = base_types(alloc, entries)?;
    let contexts = unit_contexts(alloc, units, entries)?;
    Ok((types, contexts))
}

/// All base types of an object, in the order of the entries.
fn base_types(alloc: Global, entries: &RawEntries) -> Result<List<BaseType>, NoMemory>
    requires { length entries.now < 2 ^ 32 }
    ensures { IfOk result (λ bases. bases ≡ Units.base_types entries.now) }
{
    let mut bases = List::new(alloc);
    for i in 0..entries.len() {
        let entry = entries.entry(i);
        if entry.tag() == DW_TAG_base_type {
            bases.push(BaseType {
                entry: i as u32,
                unit: entry.unit(),
                place: entry.place(),
            })?;
        }
    }
    Ok(bases)
}

/// Of each unit, what its values are understood by.
fn unit_contexts(
    alloc: Global,
    units: &[InUnit],
    entries: &RawEntries,
) -> Result<List<UnitContext>, NoMemory>
    requires roots { All (HasRoot (length entries.now)) units.now }
    requires behind { All (IsBehindHeader entries.now) units.now }
    ensures { IfOk result (λ contexts. contexts ≡ Units.contexts_of entries.now units.now) }
{
    let mut contexts = List::new(alloc);
    for unit in units {
        contexts.push(context_of(entries, unit))?;
    }
    Ok(contexts)
}

/// What the values of a unit are understood by: its version, and what its root tells.
fn context_of(entries: &RawEntries, unit: &InUnit) -> UnitContext
    requires root { HasRoot (length entries.now) unit.now }
    requires behind { IsBehindHeader entries.now unit.now }
    ensures { result ≡ Units.context_of entries.now unit.now }
{
    let root = entries.entry(unit.first as usize);
    UnitContext {
        version: unit.version,
        start: root.place() - u32::from(header_size(unit.version)),
        addr_base: bases_of(&root).addresses,
    }
}
