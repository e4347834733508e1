//! Entries that are put one behind the other.

ghost use Rattle.std.specs.Prelude.{◌≡◌, ◌<◌, ◌≤◌, ◌-◌, ◌^◌, [], ◌∷◌, ◌++◌, ◌==◌, length, slice_get, IfOk, OnOk, OnErr, IfSome};
ghost use Rattle.std.specs.List.{list_any};
ghost use Rattle.dwarf_types.specs.declared.abbrev.TheConstants.{MOST_FIELDS};
ghost use Rattle.dwarf_types.specs.declared.entry.TheConstants.{MOST_ENTRIES};
ghost use Rattle.dwarf_types.specs.Columns.{parent_of};
ghost use Rattle.dwarf_types.specs.Put.{value_read};

use crate::columns::{Cell, Head, NO_PARENT, cells_from, cells_in, has_name};
use crate::entries::{Entries, RawEntries};
use crate::entry::MOST_ENTRIES;
use crate::entry_ref::{EntryRef, RawEntryRef};
use crate::put::RawValue;
use crate::runs::room_for;
use crate::sides::Sides;
use ds_base::NoMemory;
use std::alloc::Global;
use std::marker::Model;

/// So many bytes has an entry of C++ as compilers write it, with its attributes, and so many an attribute.
const BYTES_AN_ENTRY: usize = 10;

const BYTES_AN_ATTRIBUTE: usize = 3;

/// Entries, and the attributes of the next one.
#[derive(Drop)]
pub struct Builder {
    heads: Vec<Head>,
    cells: Vec<Cell>,
    /// Of each cell, the place behind its value.
    ends: Vec<u32>,
    sides: Sides,
    /// The place of the first cell that is no entry's yet.
    open_from: usize,
}

impl Model for Builder {
    ghost use Rattle.dwarf_types.specs.Built.{Built};

    ghost Value = { Built };

    ghost use Rattle.dwarf_types.specs.Columns.{IsBuilt, built_of};

    ghost view = { λ b. built_of b.sides b.heads.items b.cells.items b.ends.items b.open_from };

    ghost invariant = { λ b. IsBuilt b.sides b.heads.items b.cells.items b.ends.items b.open_from };
}

impl Builder {
    /// No entries. Places of texts are in `strings` and, behind it, in `line_strings`: `__debug_str` and
    /// `__debug_line_str`. `size` is that of the section of the entries in bytes, and memory is set aside for as many as
    /// such a section mostly has, where there is so much.
    pub fn new(
        alloc: Global,
        strings: &[u8],
        line_strings: &[u8],
        size: usize,
    ) -> Result<Builder, NoMemory>
        ensures { IfOk result (λ built. built ≡ record { entries = []; attrs = [] }) }
    {
        let size = size.min(MOST_ENTRIES * BYTES_AN_ENTRY);
        Ok(Builder {
            heads: room_for(alloc, size / BYTES_AN_ENTRY),
            cells: room_for(alloc, size / BYTES_AN_ATTRIBUTE),
            ends: room_for(alloc, size / BYTES_AN_ATTRIBUTE),
            sides: Sides::with_texts(alloc, strings, line_strings)?,
            open_from: 0,
        })
    }

    /// The same in the memory of entries that are let go. Memory is asked for only as far as these do not have it: for
    /// texts that are longer, and for the places behind values, of which entries have none.
    pub fn over(
        alloc: Global,
        gone: Entries,
        strings: &[u8],
        line_strings: &[u8],
    ) -> Result<Builder, NoMemory>
        ensures { IfOk result (λ built. built ≡ record { entries = []; attrs = [] }) }
    {
        let (mut heads, mut cells, mut sides) = gone.into_columns();
        heads.clear();
        cells.clear();
        sides.begin_again(strings, line_strings)?;
        let ends = room_for(alloc, cells.capacity());
        Ok(Builder {
            heads,
            cells,
            ends,
            sides,
            open_from: 0,
        })
    }

    /// How many entries there are.
    pub fn len(&self) -> usize
        ensures { result ≡ length self.now.entries }
    {
        self.heads.len()
    }

    /// The entry of a number, or `None` behind the last.
    pub fn get(&self, i: usize) -> Option<RawEntryRef<'_>>
        ensures { result ≡ slice_get self.now.entries i }
    {
        if i >= self.heads.len() {
            return None;
        }
        let head = self.heads[i];
        let cells = cells_in(&self.cells, &head);
        let ends = cells_in(&self.ends, &head);
        Some(RawEntryRef::new(EntryRef::new(&self.sides, cells, head), ends))
    }

    /// Whether an attribute of the next entry has the name.
    pub fn has(&self, name: u16) -> bool
        ensures { result ≡ list_any (λ a. a.name == name) self.now.attrs }
    {
        has_name(cells_from(&self.cells, self.open_from), name)
    }

    /// Puts an attribute of the next entry behind the others: its `DW_AT` and `DW_FORM` numbers, the place behind its
    /// value in `__debug_info`, and that value.
    pub fn push(
        &mut self,
        name: u16,
        form: u16,
        end: u32,
        value: RawValue<'_>,
    ) -> Result<(), NoMemory>
        requires form { form < 256 }
        requires few { length self.old.attrs < MOST_FIELDS }
        requires room { length self.old.entries < MOST_ENTRIES }
        ensures ok { OnOk result (self.new ≡ record self.old { attrs = self.old.attrs ++ record { name = name; form = form; end = end; value = value_read form value.entry } ∷ [] }) }
        ensures unchanged { OnErr result (self.new ≡ self.old) }
    {
        // Room first: nothing fails behind the value, so a cell is made for each item that is put beside.
        self.cells.reserve(1)?;
        self.ends.reserve(1)?;
        let held = self.sides.store_read(form, value)?;
        self.cells.push_reserved(Cell {
            name,
            form: form as u8,
            kind: held.kind,
            payload: held.payload,
        });
        self.ends.push_reserved(end);
        Ok(())
    }

    /// Makes an entry of the attributes that were put.
    pub fn close(
        &mut self,
        parent: Option<u32>,
        unit: u32,
        place: u32,
        tag: u16,
    ) -> Result<(), NoMemory>
        requires parent { IfSome parent (λ p. p < 2 ^ 32 - 1) }
        requires few { length self.old.attrs ≤ MOST_FIELDS }
        requires room { length self.old.entries < MOST_ENTRIES }
        ensures ok { OnOk result (self.new ≡ record { entries = self.old.entries ++ record { parent = parent; unit = unit; place = place; tag = tag; attrs = self.old.attrs } ∷ []; attrs = [] }) }
        ensures unchanged { OnErr result (self.new ≡ self.old) }
    {
        let head = Head {
            parent: stored_parent(parent),
            unit,
            place,
            first: self.open_from as u32,
            count: (self.cells.len() - self.open_from) as u16,
            tag,
        };
        self.heads.push(head)?;
        self.open_from = self.cells.len();
        Ok(())
    }

    /// The entries.
    pub fn finish(self) -> RawEntries
        ensures { result ≡ self.entries }
    {
        let Builder {
            heads,
            cells,
            ends,
            sides,
            ..
        } = self;
        RawEntries::from_columns(heads, cells, ends, sides)
    }
}

/// A parent as a head has it.
fn stored_parent(parent: Option<u32>) -> u32
    requires { IfSome parent (λ p. p < 2 ^ 32 - 1) }
    ensures { parent_of result ≡ parent }
{
    match parent {
        None => NO_PARENT,
        Some(number) => number,
    }
}
