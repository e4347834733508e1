//! An entry where it stands.

ghost use Rattle.std.specs.Prelude.{◌≡◌, ◌<◌, ◌==◌, All, length, map, slice_get, slice_index_or, is_some, Some};
ghost use Rattle.std.specs.Option.{option_map};
ghost use Rattle.std.specs.List.{find, list_any, position};
ghost use Rattle.dwarf_types.specs.declared.entry.Attr.{Attr as AnAttr};
ghost use Rattle.dwarf_types.specs.declared.entry.RawAttr.{RawAttr as ARawAttr};
ghost use Rattle.dwarf_types.specs.Columns.{CellWithin, attr_of, entry_with};
ghost use Rattle.dwarf_types.specs.Moves.{place_in};
ghost use Rattle.dwarf_types.specs.Plain.{is_offset, is_plain};
ghost use Rattle.dwarf_types.specs.Raw.{raw_entry};
ghost use Rattle.dwarf_types.specs.Seen.{attr_seen, raw_attr_seen};

use crate::columns::{
    Cell, Head, first_named, has_address, has_offset, is_plain, kind_at, name_at,
};
use crate::seen::{AttrRef, RawAttrRef, attr_in};
use crate::sides::Sides;
use std::marker::Model;

/// An entry where it stands, which contracts see as the entry.
#[derive(Drop)]
pub struct EntryRef<'a> {
    sides: &'a Sides,
    /// Its own.
    cells: &'a [Cell],
    head: Head,
}

impl<'a> Model for EntryRef<'a> {
    ghost use Rattle.std.specs.Prelude.{All, map};
    ghost use Rattle.dwarf_types.specs.declared.entry.Entry.{Entry as AnEntry};
    ghost use Rattle.dwarf_types.specs.contracts.entry.Entry.{the_row};

    ghost Value = { AnEntry };

    ghost coded = { the_row.coded };

    ghost use Rattle.dwarf_types.specs.Columns.{CellWithin, attr_of, entry_with};

    ghost view = { λ e. entry_with e.head (map (attr_of e.sides.now) e.cells.now) };

    ghost invariant = { λ e. All (CellWithin e.sides.now) e.cells.now };
}

impl<'a> EntryRef<'a> {
    pub(crate) fn new(sides: &'a Sides, cells: &'a [Cell], head: Head) -> EntryRef<'a>
        requires { All (CellWithin sides.now) cells.now }
        ensures { result ≡ entry_with head (map (attr_of sides.now) cells.now) }
    {
        EntryRef { sides, cells, head }
    }

    /// The `DW_TAG` number.
    pub fn tag(&self) -> u16
        ensures { result ≡ self.now.tag }
    {
        self.head.tag
    }

    /// The number of its unit in the object, counted from 0.
    pub fn unit(&self) -> u32
        ensures { result ≡ self.now.unit }
    {
        self.head.unit
    }

    /// The place of its first byte in `__debug_info`.
    pub fn place(&self) -> u32
        ensures { result ≡ self.now.place }
    {
        self.head.place
    }

    /// The number of its parent among the object's entries, counted from 0; none at the root of a unit.
    pub fn parent(&self) -> Option<u32>
        ensures { result ≡ self.now.parent }
    {
        self.head.parent()
    }

    /// How many attributes it has.
    pub fn len(&self) -> usize
        ensures { result ≡ length self.now.attrs }
    {
        self.cells.len()
    }

    /// Its attribute at a place, counted from 0.
    pub fn attr(&self, j: usize) -> AttrRef<'a>
        requires { j < length self.now.attrs }
        ensures stands { slice_get self.now.attrs j ≡ Some (attr_seen result) }
        ensures item { attr_seen result ≡ slice_index_or self.now.attrs j (attr_seen result) }
    {
        attr_in(self.sides, self.cells[j])
    }

    /// The name of its attribute at a place, counted from 0, which is told without its value.
    pub fn attr_name(&self, j: usize) -> u16
        requires { j < length self.now.attrs }
        ensures { (a : AnAttr) → slice_get self.now.attrs j ≡ Some a → result ≡ a.name }
    {
        name_at(self.cells, j)
    }

    /// Whether its attribute at a place, counted from 0, is a text or a number, which mean the same wherever they stand.
    pub fn is_plain(&self, j: usize) -> bool
        requires { j < length self.now.attrs }
        ensures { (a : AnAttr) → slice_get self.now.attrs j ≡ Some a → result ≡ is_plain a.value }
    {
        is_plain(kind_at(self.cells, j))
    }

    /// Whether it has an attribute of class address.
    pub fn has_address(&self) -> bool
        ensures { result ≡ list_any (λ a. is_some (place_in a.value)) self.now.attrs }
    {
        has_address(self.cells)
    }

    /// Whether it has an attribute that is an offset as it was read.
    pub fn has_offset(&self) -> bool
        ensures { result ≡ list_any (λ a. is_offset a.value) self.now.attrs }
    {
        has_offset(self.cells)
    }

    /// Its first attribute of a name.
    pub fn find(&self, name: u16) -> Option<AttrRef<'a>>
        ensures { option_map attr_seen result ≡ find (λ a. a.name == name) self.now.attrs }
    {
        match self.index_of(name) {
            Some(j) => Some(self.attr(j)),
            None => None,
        }
    }

    /// The place of its first attribute of a name, counted from 0.
    fn index_of(&self, name: u16) -> Option<usize>
        ensures { result ≡ position (λ a. a.name == name) self.now.attrs }
    {
        first_named(self.cells, name)
    }
}

/// An entry as it is read, where it stands, which contracts see as the entry.
#[derive(Drop)]
pub struct RawEntryRef<'a> {
    entry: EntryRef<'a>,
    /// Of each attribute, the place behind its value.
    ends: &'a [u32],
}

impl<'a> Model for RawEntryRef<'a> {
    ghost use Rattle.std.specs.Prelude.{◌≡◌, length};
    ghost use Rattle.dwarf_types.specs.declared.entry.RawEntry.{RawEntry as ARawEntry};
    ghost use Rattle.dwarf_types.specs.contracts.entry.RawEntry.{the_row};

    ghost Value = { ARawEntry };

    ghost coded = { the_row.coded };

    ghost use Rattle.dwarf_types.specs.Raw.{raw_entry};

    ghost view = { λ e. raw_entry e.entry e.ends.now };

    ghost invariant = { λ e. length e.ends.now ≡ length e.entry.attrs };
}

impl<'a> RawEntryRef<'a> {
    pub(crate) fn new(entry: EntryRef<'a>, ends: &'a [u32]) -> RawEntryRef<'a>
        requires { length ends.now ≡ length entry.attrs }
        ensures { result ≡ raw_entry entry.entry ends.now }
    {
        RawEntryRef { entry, ends }
    }

    /// The `DW_TAG` number.
    pub fn tag(&self) -> u16
        ensures { result ≡ self.now.tag }
    {
        self.entry.tag()
    }

    /// The number of its unit in the object, counted from 0.
    pub fn unit(&self) -> u32
        ensures { result ≡ self.now.unit }
    {
        self.entry.unit()
    }

    /// The place of its first byte in `__debug_info`.
    pub fn place(&self) -> u32
        ensures { result ≡ self.now.place }
    {
        self.entry.place()
    }

    /// The number of its parent among the object's entries, counted from 0; none at the root of a unit.
    pub fn parent(&self) -> Option<u32>
        ensures { result ≡ self.now.parent }
    {
        self.entry.parent()
    }

    /// How many attributes it has.
    pub fn len(&self) -> usize
        ensures { result ≡ length self.now.attrs }
    {
        self.entry.len()
    }

    /// Its attribute at a place, counted from 0.
    pub fn attr(&self, j: usize) -> RawAttrRef<'a>
        requires { j < length self.now.attrs }
        ensures stands { slice_get self.now.attrs j ≡ Some (raw_attr_seen result) }
        ensures item { raw_attr_seen result ≡ slice_index_or self.now.attrs j (raw_attr_seen result) }
    {
        let attr = self.entry.attr(j);
        RawAttrRef {
            name: attr.name,
            form: attr.form,
            end: self.ends[j],
            value: attr.value,
        }
    }

    /// Whether its attribute at a place, counted from 0, is a text or a number, which mean the same wherever they stand.
    pub fn is_plain(&self, j: usize) -> bool
        requires { j < length self.now.attrs }
        ensures { (a : ARawAttr) → slice_get self.now.attrs j ≡ Some a → result ≡ is_plain a.value }
    {
        self.entry.is_plain(j)
    }

    /// Its first attribute of a name.
    pub fn find(&self, name: u16) -> Option<RawAttrRef<'a>>
        ensures { option_map raw_attr_seen result ≡ find (λ a. a.name == name) self.now.attrs }
    {
        match self.entry.index_of(name) {
            Some(j) => Some(self.attr(j)),
            None => None,
        }
    }
}
