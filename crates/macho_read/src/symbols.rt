//! The symbol table and its strings (mach-o/nlist.h).

ghost use Rattle.std.specs.Prelude.{◌≡◌, ◌+◌, ◌*◌, ◌^◌, ◌<◌, ◌≤◌, ◌++◌, [], ◌∷◌, All, length, map, take, drop, IfOk, OnOk};
ghost use Rattle.ds_base.specs.Reading.{Finds, Gives};
ghost use Rattle.macho_read.specs.Ends.{zeros_from};
ghost use Rattle.macho_read.specs.Rows.{IsWithin, symbol_of_row};
ghost use Rattle.macho_read.specs.Symbols.{each, name_in, symbol_of, symbols_in, symbols_of};

use crate::ends::{zero_from, zeros_in};
use crate::fields::{u16_at, u32_at, u64_at};
use crate::records::Symtab;
use crate::symbol_list::{Row, Symbols};
use ds_base::macho::NLIST_64_SIZE;
use ds_base::{Fault, Kind, NoMemory, Part, ReadError, bytes_from, cut};
use std::alloc::Global;

/// All symbols of a file, none where it has no table. Faults are placed at the symbol's index, counted from
/// 0; that of tables that pass the file at 0.
pub(crate) fn read_symbols(
    alloc: Global,
    bytes: &[u8],
    symtab: Option<Symtab>,
) -> Result<Symbols, ReadError>
    ensures read { Gives (λ symbols. symbols) result (symbols_of symtab bytes.now) }
    ensures few { IfOk result (λ symbols. length symbols < 2 ^ 32) }
{
    match symtab {
        Some(symtab) => read_table(alloc, bytes, symtab),
        None => Ok(Symbols::new(alloc)),
    }
}

/// All symbols of a table.
#[tactic(auto, unfolding(crate::specs::Symbols::symbols_in))]
fn read_table(alloc: Global, bytes: &[u8], symtab: Symtab) -> Result<Symbols, ReadError>
    ensures read { Gives (λ symbols. symbols) result (symbols_in symtab bytes.now) }
    ensures few { IfOk result (λ symbols. length symbols < 2 ^ 32) }
{
    let symoff = symtab.symoff as usize;
    let stroff = symtab.stroff as usize;
    let size = NLIST_64_SIZE as usize * symtab.nsyms as usize;
    let strsize = symtab.strsize as usize;
    if bytes.len() < symoff + size || bytes.len() < stroff + strsize {
        return Err(ReadError::Faulty(bad_symbols(0)));
    }
    let table = bytes_from(bytes, symoff);
    let strings = cut(bytes, stroff, strsize);
    read_entries(alloc, table, strings, symtab.nsyms)
}

/// So many symbols of a table, with their names, which stand in a copy of the strings.
fn read_entries(
    alloc: Global,
    table: &[u8],
    strings: &[u8],
    count: u32,
) -> Result<Symbols, ReadError>
    requires all { 16 * count ≤ length table.now }
    requires short { length strings.now < 2 ^ 32 }
    ensures { Gives (λ symbols. symbols) result (each (λ i. symbol_of strings.now i (drop (16 * i) table.now)) count 0) }
{
    let zeros = zeros_in(alloc, strings)?;
    let rows = read_rows(alloc, table, strings, &zeros, count)?;
    let bytes = Vec::from_slice(alloc, strings)?;
    Ok(Symbols::from_rows(rows, bytes))
}

/// The rows of so many symbols of a table. `zeros` are the places of the strings' zero bytes, so that the end of a
/// name is found without a walk over it.
fn read_rows(
    alloc: Global,
    table: &[u8],
    strings: &[u8],
    zeros: &[u32],
    count: u32,
) -> Result<Vec<Row>, ReadError>
    requires all { 16 * count ≤ length table.now }
    requires zeros { zeros.now ≡ zeros_from 0 strings.now }
    ensures read { Gives (λ rows. map (symbol_of_row strings.now) rows.items) result (each (λ i. symbol_of strings.now i (drop (16 * i) table.now)) count 0) }
    ensures within { IfOk result (λ rows. All (IsWithin strings.now) rows.items) }
{
    let mut rows = Vec::with_capacity(alloc, count as usize)?;
    let mut near = 0;
    for i in 0..count {
        let entry = bytes_from(table, NLIST_64_SIZE as usize * i as usize);
        let row = read_row(entry, strings, zeros, &mut near, i)?;
        rows.push(row)?;
    }
    Ok(rows)
}

/// The row of the symbol of this index, whose entry the bytes begin with. `zeros` are the places of the strings'
/// zero bytes, and `near` tells which may end its name.
#[tactic(auto, unfolding(crate::specs::Symbols::symbol_of))]
fn read_row(
    entry: &[u8],
    strings: &[u8],
    zeros: &[u32],
    near: &mut usize,
    index: u32,
) -> Result<Row, Fault>
    requires all { 16 ≤ length entry.now }
    requires zeros { zeros.now ≡ zeros_from 0 strings.now }
    ensures read { Finds (λ row. symbol_of_row strings.now row) result (symbol_of strings.now index entry.now) }
    ensures within { IfOk result (IsWithin strings.now) }
{
    let strx = u32_at(entry, 0);
    let len = name_len(strings, zeros, near, strx, index)?;
    Ok(Row {
        value: u64_at(entry, 8),
        place: strx as usize,
        len,
        desc: u16_at(entry, 6),
        kind: entry[4],
        sect: entry[5],
    })
}

/// How many bytes the name at an offset in the strings has; at 0 it is empty. `zeros` are the places of the
/// strings' zero bytes, `near` tells which may end it, `index` is the symbol's.
#[tactic(auto, unfolding(crate::specs::Symbols::name_in))]
fn name_len(
    strings: &[u8],
    zeros: &[u32],
    near: &mut usize,
    strx: u32,
    index: u32,
) -> Result<u32, Fault>
    requires { zeros.now ≡ zeros_from 0 strings.now }
    ensures read { Finds (λ len. take len (drop strx strings.now)) result (name_in strings.now index strx) }
    ensures within { IfOk result (λ len. strx + len ≤ length strings.now) }
{
    if strx == 0 {
        return Ok(0);
    }
    if strx as usize >= strings.len() {
        return Err(bad_symbols(index));
    }
    match zero_from(zeros, near, strx) {
        Some(end) => Ok(end - strx),
        None => Err(bad_symbols(index)),
    }
}

/// The fault of the symbol of this index.
fn bad_symbols(index: u32) -> Fault
    ensures { result ≡ Rattle.macho_read.specs.Symbols.bad_symbols index }
{
    Fault {
        kind: Kind::BadSymbols,
        section: Part::Symbols,
        place: u64::from(index),
    }
}
