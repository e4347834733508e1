//! Entries in document order, as they are read and as they are understood.

ghost use Rattle.std.specs.Prelude.{◌≡◌, ◌+◌, ◌<◌, ◌≤◌, [], drop, length, map, take, slice_get, slice_index_or, slice_set, Some, IfOk, OnOk, OnErr};
ghost use Rattle.dwarf_types.specs.declared.entry.Attr.{Attr as AnAttr};
ghost use Rattle.dwarf_types.specs.declared.entry.Entry.{Entry as AnEntry};
ghost use Rattle.dwarf_types.specs.declared.entry.RawAttr.{RawAttr as ARawAttr};
ghost use Rattle.dwarf_types.specs.declared.entry.RawEntry.{RawEntry as ARawEntry};
ghost use Rattle.dwarf_types.specs.Columns.{AreEntries, entries_of, raw_entries_of};
ghost use Rattle.dwarf_types.specs.Put.{MayBecome, value_put};
ghost use Rattle.dwarf_types.specs.Raw.{attr_count, entry_of, places_of};

use crate::columns::{Cell, Head, cells_in};
use crate::entry_ref::{EntryRef, RawEntryRef};
use crate::put::NewValue;
use crate::runs::held_by;
use crate::sides::{Held, Sides};
use ds_base::NoMemory;
use std::alloc::Global;
use std::marker::Model;

/// The entries of an object, which contracts see as the list of them.
#[derive(Drop)]
pub struct Entries {
    heads: Vec<Head>,
    cells: Vec<Cell>,
    sides: Sides,
}

impl Model for Entries {
    ghost use Rattle.std.specs.Prelude.{List};
    ghost use Rattle.std.specs.Coded.{coded_list};
    ghost use Rattle.dwarf_types.specs.declared.entry.Entry.{Entry as AnEntry};
    ghost use Rattle.dwarf_types.specs.contracts.entry.Entry.{the_row};

    ghost Value = { List AnEntry };

    ghost coded = { coded_list the_row.coded };

    ghost use Rattle.dwarf_types.specs.Columns.{AreEntries, entries_of};

    ghost view = { λ e. entries_of e.sides e.heads.items e.cells.items };

    ghost invariant = { λ e. AreEntries e.sides e.heads.items e.cells.items };
}

/// The entries of an object as they are read, which contracts see as the list of them.
#[derive(Drop)]
pub struct RawEntries {
    entries: Entries,
    /// Of each attribute, entry by entry, the place behind its value.
    ends: Vec<u32>,
}

impl Model for RawEntries {
    ghost use Rattle.std.specs.Prelude.{◌≤◌, List, length};
    ghost use Rattle.std.specs.Coded.{coded_list};
    ghost use Rattle.dwarf_types.specs.declared.entry.RawEntry.{RawEntry as ARawEntry};
    ghost use Rattle.dwarf_types.specs.contracts.entry.RawEntry.{the_row};

    ghost Value = { List ARawEntry };

    ghost coded = { coded_list the_row.coded };

    ghost use Rattle.dwarf_types.specs.Raw.{attr_count, raw_entries};

    ghost view = { λ e. raw_entries e.entries e.ends.items };

    ghost invariant = { λ e. attr_count e.entries ≤ length e.ends.items };
}

impl Entries {
    /// No entries.
    pub fn new(alloc: Global) -> Entries
        ensures { result ≡ [] }
    {
        Entries {
            heads: Vec::new(alloc),
            cells: Vec::new(alloc),
            sides: Sides::new(alloc),
        }
    }

    /// The entries of columns.
    fn from_columns(heads: Vec<Head>, cells: Vec<Cell>, sides: Sides) -> Entries
        requires { AreEntries sides heads.items cells.items }
        ensures { result ≡ entries_of sides heads.items cells.items }
    {
        Entries {
            heads,
            cells,
            sides,
        }
    }

    /// The columns, of which nothing is said: they are for others to be put together in.
    pub(crate) fn into_columns(self) -> (Vec<Head>, Vec<Cell>, Sides) {
        let Entries {
            heads,
            cells,
            sides,
        } = self;
        (heads, cells, sides)
    }

    /// A copy.
    pub(crate) fn copy(&self, alloc: Global) -> Result<Entries, NoMemory>
        ensures { IfOk result (λ it. it ≡ self.now) }
    {
        let heads = Vec::from_slice(alloc, &self.heads)?;
        let cells = Vec::from_slice(alloc, &self.cells)?;
        let sides = self.sides.copy(alloc)?;
        Ok(Entries::from_columns(heads, cells, sides))
    }

    /// How many bytes they hold.
    pub(crate) fn held_bytes(&self) -> u64 {
        held_by(&self.heads, size_of::<Head>())
            .saturating_add(held_by(&self.cells, size_of::<Cell>()))
            .saturating_add(self.sides.held_bytes())
    }

    /// How many entries there are.
    pub fn len(&self) -> usize
        ensures { result ≡ length self.now }
    {
        self.heads.len()
    }

    /// The entry of a number, or `None` behind the last.
    pub fn get(&self, i: usize) -> Option<EntryRef<'_>>
        ensures { result ≡ slice_get self.now i }
    {
        if i >= self.heads.len() {
            return None;
        }
        Some(self.entry(i))
    }

    /// The entry of a number.
    pub fn entry(&self, i: usize) -> EntryRef<'_>
        requires { i < length self.now }
        ensures stands { slice_get self.now i ≡ Some result }
        ensures item { result ≡ slice_index_or self.now i result }
    {
        let head = self.heads[i];
        EntryRef::new(&self.sides, cells_in(&self.cells, &head), head)
    }

    /// How many attributes the entries before that of a number have.
    fn attrs_before(&self, i: usize) -> usize
        requires { i < length self.now }
        ensures { result ≡ attr_count (take i self.now) }
    {
        self.heads[i].first as usize
    }

    /// The place in `__debug_info` of the entry of a number.
    fn place_of(&self, i: usize) -> u32
        requires { i < length self.now }
        ensures { result ≡ slice_index_or (map (λ e. e.place) self.now) i 0 }
    {
        self.heads[i].place
    }

    /// Another value for the attribute at place `j` of entry `i`.
    pub fn set(&mut self, i: usize, j: usize, value: NewValue<'_>) -> Result<(), NoMemory>
        requires stands { (e : AnEntry) × (slice_get self.old i ≡ Some e) × (j < length e.attrs) }
        requires becomes { (e : AnEntry) (a : AnAttr) → slice_get self.old i ≡ Some e → slice_get e.attrs j ≡ Some a → MayBecome a.value value }
        ensures ok { (e : AnEntry) (a : AnAttr) → slice_get self.old i ≡ Some e → slice_get e.attrs j ≡ Some a
            → OnOk result (self.new ≡ slice_set self.old i (record e { attrs = slice_set e.attrs j (record a { value = value_put value.entry }) })) }
        ensures unchanged { OnErr result (self.new ≡ self.old) }
    {
        let k = self.heads[i].first as usize + j;
        let cell = self.cells[k];
        let held = self.sides.store_over(cell.held(), value)?;
        self.cells[k] = with_value(cell, held);
        Ok(())
    }
}

impl RawEntries {
    /// The entries of columns.
    pub(crate) fn from_columns(
        heads: Vec<Head>,
        cells: Vec<Cell>,
        ends: Vec<u32>,
        sides: Sides,
    ) -> RawEntries
        requires entries { AreEntries sides heads.items cells.items }
        requires beside { length ends.items ≡ length cells.items }
        ensures { result ≡ raw_entries_of sides heads.items cells.items ends.items }
    {
        RawEntries {
            entries: Entries::from_columns(heads, cells, sides),
            ends,
        }
    }

    /// A copy.
    pub(crate) fn copy(&self, alloc: Global) -> Result<RawEntries, NoMemory>
        ensures { IfOk result (λ it. it ≡ self.now) }
    {
        Ok(RawEntries {
            entries: self.entries.copy(alloc)?,
            ends: Vec::from_slice(alloc, &self.ends)?,
        })
    }

    /// How many entries there are.
    pub fn len(&self) -> usize
        ensures { result ≡ length self.now }
    {
        self.entries.len()
    }

    /// The entry of a number, or `None` behind the last.
    pub fn get(&self, i: usize) -> Option<RawEntryRef<'_>>
        ensures { result ≡ slice_get self.now i }
    {
        if i >= self.len() {
            return None;
        }
        Some(self.entry(i))
    }

    /// The entry of a number.
    pub fn entry(&self, i: usize) -> RawEntryRef<'_>
        requires { i < length self.now }
        ensures stands { slice_get self.now i ≡ Some result }
        ensures item { result ≡ slice_index_or self.now i result }
    {
        let entry = self.entries.entry(i);
        let ends = ends_in(&self.ends, self.entries.attrs_before(i), entry.len());
        RawEntryRef::new(entry, ends)
    }

    /// The place in `__debug_info` of the entry of a number.
    pub(crate) fn place_of(&self, i: usize) -> u32
        requires { i < length self.now }
        ensures { result ≡ slice_index_or (places_of self.now) i 0 }
    {
        self.entries.place_of(i)
    }

    /// Another value for the attribute at place `j` of entry `i`.
    pub fn set(&mut self, i: usize, j: usize, value: NewValue<'_>) -> Result<(), NoMemory>
        requires stands { (e : ARawEntry) × (slice_get self.old i ≡ Some e) × (j < length e.attrs) }
        requires becomes { (e : ARawEntry) (a : ARawAttr) → slice_get self.old i ≡ Some e → slice_get e.attrs j ≡ Some a → MayBecome a.value value }
        ensures ok { (e : ARawEntry) (a : ARawAttr) → slice_get self.old i ≡ Some e → slice_get e.attrs j ≡ Some a
            → OnOk result (self.new ≡ slice_set self.old i (record e { attrs = slice_set e.attrs j (record a { value = value_put value.entry }) })) }
        ensures unchanged { OnErr result (self.new ≡ self.old) }
    {
        self.entries.set(i, j, value)?;
        Ok(())
    }

    /// The entries, without the places of their values.
    pub fn into_entries(self) -> Entries
        ensures { result ≡ map entry_of self }
    {
        let RawEntries { entries, .. } = self;
        entries
    }
}

/// So many places from one on.
fn ends_in(ends: &[u32], first: usize, count: usize) -> &[u32]
    requires { first + count ≤ length ends.now }
    ensures { result.now ≡ take count (drop first ends.now) }
{
    &ends[first..first + count]
}

/// Another value in a cell.
fn with_value(cell: Cell, held: Held) -> Cell
    ensures { result ≡ record cell { kind = held.kind; payload = held.payload } }
{
    Cell {
        name: cell.name,
        form: cell.form,
        kind: held.kind,
        payload: held.payload,
    }
}
