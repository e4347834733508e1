//! The symbols of an image, in rows that name their texts by places.

ghost use Rattle.std.specs.Prelude.{◌≡◌, ◌++◌, ◌<◌, ◌^◌, [], ◌∷◌, All, length, map, slice_get, slice_index_or, Some, OnOk, OnErr};
ghost use Rattle.std.specs.Option.{option_map};
ghost use Rattle.macho_read.specs.Rows.{IsWithin, symbol_of_row};
ghost use Rattle.macho_read.specs.Seen.{symbol_seen};

use ds_base::{NoMemory, cut};
use std::alloc::Global;
use std::marker::Model;

/// A symbol but for its name, and where that stands.
#[derive(Clone, Copy)]
pub(crate) struct Row {
    pub value: u64,
    /// Of the first byte of the name, in the bytes of all names.
    pub place: usize,
    /// Of the name, in bytes.
    pub len: u32,
    pub desc: u16,
    pub kind: u8,
    pub sect: u8,
}

/// The symbols of an image, which contracts see as the list of them. Names may share their bytes.
#[derive(Drop)]
pub struct Symbols {
    rows: Vec<Row>,
    /// In which all names stand.
    bytes: Vec<u8>,
}

impl Model for Symbols {
    ghost use Rattle.std.specs.Prelude.{List};
    ghost use Rattle.std.specs.Coded.{coded_list};
    ghost use Rattle.macho_read.specs.declared.image.Symbol.{Symbol as ASymbol};
    ghost use Rattle.macho_read.specs.contracts.image.Symbol.{the_row};

    ghost Value = { List ASymbol };

    ghost coded = { coded_list the_row.coded };

    ghost use Rattle.std.specs.Prelude.{All, map};
    ghost use Rattle.macho_read.specs.Rows.{IsWithin, symbol_of_row};

    ghost view = { λ s. map (symbol_of_row s.bytes.items) s.rows.items };

    ghost invariant = { λ s. All (IsWithin s.bytes.items) s.rows.items };
}

/// A symbol or a stab where it stands.
#[derive(Clone, Copy)]
pub struct SymbolRef<'a> {
    pub name: &'a [u8],
    pub kind: u8,
    /// The ordinal of its section, counted from 1, or 0.
    pub sect: u8,
    pub desc: u16,
    pub value: u64,
}

impl Symbols {
    /// No symbols. It asks the allocator for nothing.
    pub fn new(alloc: Global) -> Symbols
        ensures { result ≡ [] }
    {
        Symbols {
            rows: Vec::new(alloc),
            bytes: Vec::new(alloc),
        }
    }

    /// The symbols of rows whose names stand in the bytes.
    pub(crate) fn from_rows(rows: Vec<Row>, bytes: Vec<u8>) -> Symbols
        requires { All (IsWithin bytes.items) rows.items }
        ensures { result ≡ map (symbol_of_row bytes.items) rows.items }
    {
        Symbols { rows, bytes }
    }

    /// Puts a symbol last, with a copy of its name. Where there is no memory for it, the symbols stay.
    pub fn push(
        &mut self,
        name: &[u8],
        kind: u8,
        sect: u8,
        desc: u16,
        value: u64,
    ) -> Result<(), NoMemory>
        requires { length name.now < 2 ^ 32 }
        ensures ok { OnOk result (self.new ≡ self.old ++ record { name = name.now; kind = kind; sect = sect; desc = desc; value = value } ∷ []) }
        ensures unchanged { OnErr result (self.new ≡ self.old) }
    {
        let row = Row {
            value,
            place: self.bytes.len(),
            len: name.len() as u32,
            desc,
            kind,
            sect,
        };
        self.bytes.extend_from_slice(name)?;
        self.rows.push(row)?;
        Ok(())
    }

    /// How many symbols there are.
    pub fn len(&self) -> usize
        ensures { result ≡ length self.now }
    {
        self.rows.len()
    }

    /// The symbol of an index, which counts from 0, or `None` behind the last.
    pub fn get(&self, i: usize) -> Option<SymbolRef<'_>>
        ensures { option_map symbol_seen result ≡ slice_get self.now i }
    {
        if i >= self.rows.len() {
            return None;
        }
        Some(self.symbol(i))
    }

    /// The symbol of an index, which counts from 0.
    pub fn symbol(&self, i: usize) -> SymbolRef<'_>
        requires { i < length self.now }
        ensures stands { slice_get self.now i ≡ Some (symbol_seen result) }
        ensures item { symbol_seen result ≡ slice_index_or self.now i (symbol_seen result) }
    {
        symbol_in(&self.bytes, self.rows[i])
    }
}

/// The symbol of a row.
fn symbol_in(bytes: &[u8], row: Row) -> SymbolRef<'_>
    requires { IsWithin bytes.now row }
    ensures { symbol_seen result ≡ symbol_of_row bytes.now row }
{
    SymbolRef {
        name: cut(bytes, row.place, row.len as usize),
        kind: row.kind,
        sect: row.sect,
        desc: row.desc,
        value: row.value,
    }
}
