//! The debug map of the generated program, and the stabs that say it.

ghost use Rattle.std.specs.Prelude.{◌≡◌, ◌<◌, ◌≤◌, ◌^◌, ◌++◌, ◌∷◌, [], IfOk, OnOk, map, length};
ghost use Rattle.std.specs.List.{All, flat_map};
ghost use Rattle.sample_objects.specs.GeneratedProgram;
ghost use Rattle.sample_objects.specs.GeneratedProgram.{function_stabs, linked_numbers, map_entry, map_object, object_stabs, path_of, stab};

use crate::linked::{linked_at, linked_functions};
use crate::objects::symbol_name;
use crate::texts::{FOLDER, OBJECT_ENDING, numbered};
use crate::unit::FUNCTION_SIZE;
use ds_base::macho::{N_FUN, N_OSO};
use ds_base::{Bytes, List, NoMemory};
use macho_read::Symbols;
use stab_map::{MapEntry, MapObject};
use std::alloc::Global;

/// What the debug map says of an object.
pub(crate) fn map_object_of(alloc: Global, i: u32) -> Result<MapObject, NoMemory>
    requires { i ≤ 1000 }
    ensures { IfOk result (λ object. object ≡ map_object i) }
{
    let path = path_for(alloc, i)?;
    let file = path_for(alloc, i)?;
    let entries = map_entries_of(alloc, i)?;
    Ok(MapObject {
        path,
        file,
        member: None,
        entries,
    })
}

/// The path of an object's file.
fn path_for(alloc: Global, i: u32) -> Result<Bytes, NoMemory>
    ensures { IfOk result (λ path. path ≡ path_of i) }
{
    let mut path = numbered(alloc, &FOLDER, i)?;
    path.extend(&OBJECT_ENDING)?;
    Ok(path)
}

/// The functions of an object that were linked.
fn map_entries_of(alloc: Global, i: u32) -> Result<List<MapEntry>, NoMemory>
    requires { i ≤ 1000 }
    ensures { IfOk result (λ entries. entries ≡ map (map_entry i) linked_numbers) }
{
    let numbers = linked_functions(alloc)?;
    let entries = entries_of(alloc, i, numbers.as_slice())?;
    Ok(entries)
}

fn entries_of(alloc: Global, i: u32, numbers: &[u32]) -> Result<List<MapEntry>, NoMemory>
    requires object { i ≤ 1000 }
    requires numbers { All (λ j. j < 100) numbers.now }
    ensures { IfOk result (λ entries. entries ≡ map (map_entry i) numbers.now) }
{
    let mut entries = List::new(alloc);
    for j in numbers {
        add_map_entry(alloc, &mut entries, i, *j)?;
    }
    Ok(entries)
}

fn add_map_entry(
    alloc: Global,
    entries: &mut List<MapEntry>,
    i: u32,
    j: u32,
) -> Result<(), NoMemory>
    requires object { i ≤ 1000 }
    requires number { j < 100 }
    ensures { OnOk result (entries.new ≡ entries.old ++ map_entry i j ∷ []) }
{
    let name = symbol_name(alloc, i, j)?;
    entries.push(MapEntry {
        name,
        linked: linked_at(i, j),
        size: Some(u64::from(FUNCTION_SIZE)),
    })
}

/// Puts the stabs of an object last: its path, and those of its functions.
pub(crate) fn add_object_stabs(alloc: Global, symbols: &mut Symbols, i: u32) -> Result<(), NoMemory>
    requires { i ≤ 1000 }
    ensures { OnOk result (symbols.new ≡ symbols.old ++ object_stabs i) }
{
    let path = path_for(alloc, i)?;
    let numbers = linked_functions(alloc)?;
    add_stab(symbols, path.as_slice(), N_OSO, 0)?;
    add_functions_stabs(alloc, symbols, i, numbers.as_slice())?;
    Ok(())
}

fn add_functions_stabs(
    alloc: Global,
    symbols: &mut Symbols,
    i: u32,
    numbers: &[u32],
) -> Result<(), NoMemory>
    requires object { i ≤ 1000 }
    requires numbers { All (λ j. j < 100) numbers.now }
    ensures { OnOk result (symbols.new ≡ symbols.old ++ flat_map (function_stabs i) numbers.now) }
{
    for j in numbers {
        add_function_stabs(alloc, symbols, i, *j)?;
    }
    Ok(())
}

/// Puts the stabs of a function last: its name and its address, and its size.
fn add_function_stabs(alloc: Global, symbols: &mut Symbols, i: u32, j: u32) -> Result<(), NoMemory>
    requires object { i ≤ 1000 }
    requires number { j < 100 }
    ensures { OnOk result (symbols.new ≡ symbols.old ++ function_stabs i j) }
{
    let name = symbol_name(alloc, i, j)?;
    add_stab(symbols, name.as_slice(), N_FUN, linked_at(i, j))?;
    add_stab(symbols, &[], N_FUN, u64::from(FUNCTION_SIZE))?;
    Ok(())
}

fn add_stab(symbols: &mut Symbols, name: &[u8], kind: u8, value: u64) -> Result<(), NoMemory>
    requires { length name.now < 2 ^ 32 }
    ensures { OnOk result (symbols.new ≡ symbols.old ++ stab name.now kind value ∷ []) }
{
    symbols.push(name, kind, 0, 0, value)
}
