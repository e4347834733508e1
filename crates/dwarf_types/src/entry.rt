//! Units, and what contracts see of their entries: these stand in flat columns (`Entries`, `RawEntries`).

ghost use Rattle.std.specs.Prelude.{◌≡◌, IfOk, take};

use crate::entries::RawEntries;
use crate::lines::OutLines;
use crate::value::Value;
use ds_base::{List, NoMemory};
use std::alloc::Global;

/// The most entries that an object may have.
pub const MOST_ENTRIES: usize = 1 << 24;

/// An attribute of an entry.
#[derive(Drop)]
pub struct Attr {
    /// The `DW_AT` number.
    pub name: u16,
    /// The `DW_FORM` number in which the value was read.
    pub form: u16,
    pub value: Value,
}

/// A debugging information entry of an object (DWARF 4, section 2.1).
#[derive(Drop)]
pub struct Entry {
    /// The number of its parent among the object's entries, counted from 0; none at the root of a unit.
    pub parent: Option<u32>,
    /// The number of its unit in the object, counted from 0.
    pub unit: u32,
    /// Of its first byte in `__debug_info`.
    pub place: u32,
    /// The `DW_TAG` number.
    pub tag: u16,
    pub attrs: List<Attr>,
}

/// An attribute as it is read.
#[derive(Drop)]
pub struct RawAttr {
    /// The `DW_AT` number.
    pub name: u16,
    /// The `DW_FORM` number in which the value was read.
    pub form: u16,
    /// Of the first byte behind its value in `__debug_info`.
    pub end: u32,
    pub value: Value,
}

/// An entry as it is read.
#[derive(Drop)]
pub struct RawEntry {
    /// The number of its parent among the object's entries, counted from 0; none at the root of a unit.
    pub parent: Option<u32>,
    /// The number of its unit in the object, counted from 0.
    pub unit: u32,
    /// Of its first byte in `__debug_info`.
    pub place: u32,
    /// The `DW_TAG` number.
    pub tag: u16,
    pub attrs: List<RawAttr>,
}

/// A unit of an object (DWARF 4, section 7.5.1.1). Its entries follow one another.
#[derive(Drop)]
pub struct InUnit {
    /// The number of its first entry, the root.
    pub first: u32,
    /// How many entries it has.
    pub count: u32,
    pub version: u16,
    /// The `DW_LANG` number of the root, 0 where it has none.
    pub language: u16,
    /// Its line table, where the root names one; none as it is read.
    pub lines: Option<OutLines>,
}

impl InUnit {
    /// A copy.
    fn copy(&self, alloc: Global) -> Result<InUnit, NoMemory>
        ensures { IfOk result (λ it. it ≡ self.now) }
    {
        Ok(InUnit {
            first: self.first,
            count: self.count,
            version: self.version,
            language: self.language,
            lines: copy_lines(alloc, &self.lines)?,
        })
    }
}

/// The units of an object as they are read.
#[derive(Drop)]
pub struct RawUnits {
    pub units: List<InUnit>,
    /// The entries of all units, in document order: an entry stands before those below it.
    pub entries: RawEntries,
}

/// A copy of units as they are read. The columns are copied as they stand, so this takes the time to copy their bytes.
pub fn copy_units(alloc: Global, read: &RawUnits) -> Result<RawUnits, NoMemory>
    ensures { IfOk result (λ it. it ≡ read.now) }
{
    Ok(RawUnits {
        units: copy_each(alloc, &read.units)?,
        entries: read.entries.copy(alloc)?,
    })
}

/// A copy of units, each with its line table.
pub(crate) fn copy_each(alloc: Global, units: &List<InUnit>) -> Result<List<InUnit>, NoMemory>
    ensures { IfOk result (λ it. it ≡ units.now) }
{
    let mut made = List::with_capacity(alloc, units.len())?;
    for unit in units.as_slice() {
        made.push(unit.copy(alloc)?)?;
    }
    Ok(made)
}

/// A copy of a line table, if there is one.
fn copy_lines(alloc: Global, lines: &Option<OutLines>) -> Result<Option<OutLines>, NoMemory>
    ensures { IfOk result (λ it. it ≡ lines.now) }
{
    match lines {
        Some(lines) => Ok(Some(lines.copy(alloc)?)),
        None => Ok(None),
    }
}
