//! The symbols of a file, and the strings that their names are in (mach-o/nlist.h).

ghost use Rattle.std.specs.Prelude.{◌≡◌, ◌++◌, IfOk, length};
ghost use Rattle.macho_write.specs.SymbolTable.{strings_bytes, symbols_bytes};

use ds_base::macho::NLIST_64_SIZE;
use ds_base::{Bytes, NoMemory};
use macho_read::Symbols;
use macho_write::{emit_strings, emit_symbols, strings_size};
use std::alloc::Global;

/// Symbols, each with the place of its name in the strings, and the strings behind them.
pub(crate) fn symbols_of(alloc: Global, symbols: &Symbols) -> Result<Bytes, NoMemory>
    ensures { IfOk result (λ bytes. bytes ≡ symbols_bytes symbols.now ++ strings_bytes symbols.now) }
{
    let table = u128::from(NLIST_64_SIZE) * symbols.len() as u128;
    let mut room = room_of(alloc, table + strings_size(symbols, true))?;
    write_symbols(symbols, room.as_mut_slice());
    Ok(room)
}

/// Writes symbols and their strings into a room of their size.
fn write_symbols(symbols: &Symbols, room: &mut [u8])
    requires { length room.old ≡ length (symbols_bytes symbols.now ++ strings_bytes symbols.now) }
    ensures { room.new ≡ symbols_bytes symbols.now ++ strings_bytes symbols.now }
{
    let at = emit_symbols(symbols, true, room, 0);
    emit_strings(symbols, true, room, at);
}

/// A room of so many bytes. The allocator refuses one that is larger than memory.
fn room_of(alloc: Global, size: u128) -> Result<Bytes, NoMemory>
    ensures { IfOk result (λ room. length room ≡ size) }
{
    let count = size.min(u128::from(u64::MAX)) as usize;
    let room = vec![in alloc; 0u8; count]?;
    Ok(Bytes::from_vec(room))
}
