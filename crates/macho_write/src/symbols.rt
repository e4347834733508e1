//! Symbols (mach-o/nlist.h, `nlist_64`) and the strings that their names are in, of all symbols or without the stabs.

ghost use Rattle.std.specs.Prelude.{◌≡◌, ◌+◌, ◌*◌, ◌≤◌, ◌^◌, length};
ghost use Rattle.std.specs.List.{flat_map};
ghost use Rattle.byteorder.specs.Endian.{little_bytes};
ghost use Rattle.ds_base.specs.Room.{Adds};
ghost use Rattle.macho_read.specs.ImageSpelling.{nlist_bytes};
ghost use Rattle.macho_read.specs.Seen.{symbol_seen};
ghost use Rattle.macho_write.specs.SymbolTable;
ghost use Rattle.macho_write.specs.SymbolTable.{chosen, entries_from, entry_of, strings_bytes, symbols_bytes, text_of};

use ds_base::{emit_bytes, emit_u8, emit_u16, emit_u64};
use macho_read::{SymbolRef, Symbols, is_stab};

/// How many bytes the place of a name has.
const PLACE_SIZE: usize = 4;

/// The size in bytes of the strings of symbols, with those of stabs if `stabs`.
pub fn strings_size(symbols: &Symbols, stabs: bool) -> u128
    ensures size { result ≡ length (strings_bytes (chosen stabs symbols.now)) }
    // Names are in memory.
    ensures room { result ≤ 1 + length symbols.now * 2 ^ 63 }
{
    let mut size = 1;
    for i in 0..symbols.len() {
        let symbol = symbols.symbol(i);
        size += text_size(symbol, stabs);
    }
    size
}

/// The size of a symbol's name in the strings, with its end; 0 where it has no name there.
fn text_size(symbol: SymbolRef<'_>, stabs: bool) -> u128
    ensures size { result ≡ length (text_of stabs (symbol_seen symbol.entry)) }
    ensures room { result ≤ 2 ^ 63 }
{
    if has_no_text(symbol, stabs) {
        return 0;
    }
    symbol.name.len() as u128 + 1
}

/// Whether a symbol has no name in the strings.
fn has_no_text(symbol: SymbolRef<'_>, stabs: bool) -> bool
    ensures { result ≡ SymbolTable.has_no_text stabs (symbol_seen symbol.entry) }
{
    is_left_out(symbol, stabs) || symbol.name.is_empty()
}

/// Whether a symbol is left out.
fn is_left_out(symbol: SymbolRef<'_>, stabs: bool) -> bool
    ensures { result ≡ SymbolTable.is_left_out stabs (symbol_seen symbol.entry) }
{
    if stabs {
        return false;
    }
    is_stab(symbol)
}

/// Writes the table of symbols, with the stabs if `stabs`, each with the place of its name in the strings. Answers the
/// place behind it.
pub fn emit_symbols(symbols: &Symbols, stabs: bool, room: &mut [u8], at: usize) -> usize
    requires fits { at + length (symbols_bytes (chosen stabs symbols.now)) ≤ length room.old }
    ensures { Adds room.old at (symbols_bytes (chosen stabs symbols.now)) room.new result }
{
    emit_entries(symbols, stabs, room, at)
}

fn emit_entries(symbols: &Symbols, stabs: bool, room: &mut [u8], start: usize) -> usize
    requires fits { start + length (entries_from stabs 1 symbols.now) ≤ length room.old }
    ensures { Adds room.old start (entries_from stabs 1 symbols.now) room.new result }
{
    let mut at = start;
    let mut place = 1;
    for i in 0..symbols.len() {
        let symbol = symbols.symbol(i);
        at = emit_symbol(symbol, stabs, place, room, at);
        place += text_size(symbol, stabs);
    }
    at
}

/// Writes a symbol whose name stands at a place of the strings, unless it is left out.
fn emit_symbol(symbol: SymbolRef<'_>, stabs: bool, place: u128, room: &mut [u8], at: usize) -> usize
    requires fits { at + length (entry_of stabs place (symbol_seen symbol)) ≤ length room.old }
    ensures { Adds room.old at (entry_of stabs place (symbol_seen symbol.entry)) room.new result }
{
    if is_left_out(symbol, stabs) {
        return at;
    }
    if symbol.name.is_empty() {
        emit_entry(symbol, 0, room, at)
    } else {
        emit_entry(symbol, place, room, at)
    }
}

/// Writes a symbol.
fn emit_entry(symbol: SymbolRef<'_>, place: u128, room: &mut [u8], at: usize) -> usize
    requires fits { at + 16 ≤ length room.old }
    ensures { Adds room.old at (nlist_bytes (place, symbol_seen symbol.entry)) room.new result }
{
    let at = emit_place(room, at, place);
    let at = emit_byte(room, at, symbol.kind);
    let at = emit_byte(room, at, symbol.sect);
    let at = emit_u16(room, at, symbol.desc);
    emit_u64(room, at, symbol.value)
}

/// Writes a place in the strings; of a greater number than its field holds, the lowest four bytes.
fn emit_place(room: &mut [u8], at: usize, place: u128) -> usize
    requires fits { at + 4 ≤ length room.old }
    ensures { Adds room.old at (little_bytes 4 place) room.new result }
{
    let bytes = place.to_le_bytes();
    emit_bytes(room, at, &bytes[..PLACE_SIZE])
}

/// Writes a number of one byte.
fn emit_byte(room: &mut [u8], at: usize, n: u8) -> usize
    requires fits { at + 1 ≤ length room.old }
    ensures { Adds room.old at (little_bytes 1 n) room.new result }
{
    emit_u8(room, at, n)
}

/// Writes the strings of symbols, with those of stabs if `stabs`: a zero byte, and the names. Answers the place behind
/// them.
pub fn emit_strings(symbols: &Symbols, stabs: bool, room: &mut [u8], at: usize) -> usize
    requires fits { at + length (strings_bytes (chosen stabs symbols.now)) ≤ length room.old }
    ensures { Adds room.old at (strings_bytes (chosen stabs symbols.now)) room.new result }
{
    let at = emit_u8(room, at, 0);
    emit_texts(symbols, stabs, room, at)
}

fn emit_texts(symbols: &Symbols, stabs: bool, room: &mut [u8], start: usize) -> usize
    requires fits { start + length (flat_map (text_of stabs) symbols.now) ≤ length room.old }
    ensures { Adds room.old start (flat_map (text_of stabs) symbols.now) room.new result }
{
    let mut at = start;
    for i in 0..symbols.len() {
        let symbol = symbols.symbol(i);
        at = emit_text(symbol, stabs, room, at);
    }
    at
}

/// Writes a symbol's name and a zero byte, if it has a name in the strings.
fn emit_text(symbol: SymbolRef<'_>, stabs: bool, room: &mut [u8], at: usize) -> usize
    requires fits { at + length (text_of stabs (symbol_seen symbol)) ≤ length room.old }
    ensures { Adds room.old at (text_of stabs (symbol_seen symbol.entry)) room.new result }
{
    if has_no_text(symbol, stabs) {
        return at;
    }
    let at = emit_bytes(room, at, symbol.name);
    emit_u8(room, at, 0)
}
