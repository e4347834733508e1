//! The symbols of an object by their names.

ghost use Rattle.std.specs.Prelude.{◌≡◌, ◌^◌, ◌<◌, List as Listed, ℕ, length, IfOk};
ghost use Rattle.std.specs.List.{enumerate_from, find};
ghost use Rattle.std.specs.Option.{option_map};
ghost use Rattle.addr_map.specs.Entries.{has_name};
ghost use Rattle.addr_map.specs.Tables.{index_in};

use ds_base::{NoMemory, TextKey};
use macho_read::{Symbols, is_stab};
use std::alloc::Global;
use std::collections::HashMap;

/// The index of each name: that of the first symbol with the name that isn't a stab, counted from 0.
pub(crate) fn symbols_by_name<'a>(
    alloc: Global,
    symbols: &'a Symbols,
) -> Result<HashMap<TextKey<'a>, u32>, NoMemory>
    requires { length symbols.now < 2 ^ 32 }
    ensures { IfOk result (λ table. (name : Listed ℕ) → index_in table name ≡ option_map (λ s. s.0) (find (has_name name) (enumerate_from 0 symbols.now))) }
{
    let mut table = HashMap::with_capacity(alloc, symbols.len())?;
    // The table keeps the last index of a name, and so the first symbol comes last.
    for i in (0..symbols.len()).rev() {
        let symbol = symbols.symbol(i);
        if !is_stab(symbol) {
            table.insert(TextKey { text: symbol.name }, i as u32)?;
        }
    }
    Ok(table)
}
