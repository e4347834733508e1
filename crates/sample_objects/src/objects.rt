//! What the files of the generated objects are made of.

ghost use Rattle.std.specs.Prelude.{◌≡◌, ◌<◌, ◌≤◌, ◌+◌, ◌++◌, ◌∷◌, [], IfOk, OnOk, map, length, slice_index};
ghost use Rattle.unit_draft.specs.Drafted.{IsDraft};
ghost use Rattle.sample_objects.specs.GeneratedProgram;
ghost use Rattle.sample_objects.specs.GeneratedProgram.{reloc_of, spec_of, symbol_of};
ghost use Rattle.sample_objects.specs.GeneratedUnit;
ghost use Rattle.sample_objects.specs.GeneratedUnit.{all_numbers};

use crate::file::TEXT_SECTION;
use crate::functions::function_name;
use crate::spec::ObjectSpec;
use crate::texts::SYMBOL;
use crate::unit::{FUNCTION_SIZE, STRUCTURES, function_node, unit_of};
use ds_base::macho::{CPU_TYPE_ARM64, N_EXT, N_SECT};
use ds_base::{Bytes, List, NoMemory};
use dwarf_types::OutUnit;
use macho_read::Symbols;
use reloc_table::Reloc;
use std::alloc::Global;
use std::thread::Threads;
use unit_draft::{Draft, DraftError, draft_unit};

/// How many bytes the low_pc of a function and what follows it in its entry have: an address, and the high_pc in 4 bytes.
const LOW_PC_AND_BEHIND: u32 = 8 + 4;

/// What the file of an object is made of.
pub(crate) fn spec_for<R: Threads + Sync>(
    rt: &R,
    alloc: Global,
    i: u32,
) -> Result<ObjectSpec, NoMemory>
    requires { i ≤ 1000 }
    ensures { IfOk result (λ spec. spec ≡ spec_of i) }
{
    let unit = unit_of(alloc, i)?;
    let symbols = symbols_for(alloc, i)?;
    let relocs = relocs_for(rt, alloc, &unit, i)?;
    Ok(ObjectSpec {
        cpu: CPU_TYPE_ARM64,
        unit,
        symbols,
        relocs,
    })
}

/// A symbol for each function.
fn symbols_for(alloc: Global, i: u32) -> Result<Symbols, NoMemory>
    requires { i ≤ 1000 }
    ensures { IfOk result (λ symbols. symbols ≡ map (symbol_of i) all_numbers) }
{
    let mut symbols = Symbols::new(alloc);
    for j in 0..STRUCTURES {
        add_symbol(alloc, &mut symbols, i, j)?;
    }
    Ok(symbols)
}

fn add_symbol(alloc: Global, symbols: &mut Symbols, i: u32, j: u32) -> Result<(), NoMemory>
    requires object { i ≤ 1000 }
    requires number { j < 100 }
    ensures { OnOk result (symbols.new ≡ symbols.old ++ symbol_of i j ∷ []) }
{
    let name = symbol_name(alloc, i, j)?;
    let value = u64::from(FUNCTION_SIZE * j);
    symbols.push(name.as_slice(), N_SECT | N_EXT, TEXT_SECTION, 0, value)
}

/// The name of the symbol of a function.
pub(crate) fn symbol_name(alloc: Global, i: u32, j: u32) -> Result<Bytes, NoMemory>
    ensures { IfOk result (λ name. name ≡ GeneratedProgram.symbol_name i j) }
{
    let mut name = Bytes::from_slice(alloc, &SYMBOL)?;
    let function = function_name(alloc, i, j)?;
    name.extend(function.as_slice())?;
    Ok(name)
}

/// A relocation for the low_pc of each function.
fn relocs_for<R: Threads + Sync>(
    rt: &R,
    alloc: Global,
    unit: &OutUnit,
    i: u32,
) -> Result<List<Reloc>, NoMemory>
    requires object { i ≤ 1000 }
    requires unit { unit.now ≡ GeneratedUnit.unit_of i }
    ensures { IfOk result (λ relocs. relocs ≡ map (reloc_of i) all_numbers) }
{
    let draft = draft_of(rt, alloc, unit, i)?;
    let mut relocs = List::new(alloc);
    for j in 0..STRUCTURES {
        let reloc = reloc_for(&draft, i, j);
        relocs.push(reloc)?;
    }
    Ok(relocs)
}

/// The draft of the unit, which tells where its entries stand.
fn draft_of<R: Threads + Sync>(
    rt: &R,
    alloc: Global,
    unit: &OutUnit,
    i: u32,
) -> Result<Draft, NoMemory>
    requires object { i ≤ 1000 }
    requires unit { unit.now ≡ GeneratedUnit.unit_of i }
    ensures { IfOk result (IsDraft 0 (GeneratedUnit.unit_of i)) }
{
    match draft_unit(rt, alloc, 1, unit, 0) {
        Ok(draft) => Ok(draft),
        Err(DraftError::NoMemory) => Err(NoMemory),
        Err(DraftError::Unit) => unreachable!(),
    }
}

/// The relocation of the low_pc of function `j`, by the draft of its unit: behind the entry stands its first variable.
fn reloc_for(draft: &Draft, i: u32, j: u32) -> Reloc
    requires number { j < 100 }
    requires draft { IsDraft 0 (GeneratedUnit.unit_of i) draft.now }
    ensures { result ≡ reloc_of i j }
{
    let variable = function_node(j) + 1;
    let end = draft.places.as_slice()[variable as usize];
    Reloc {
        place: end - LOW_PC_AND_BEHIND,
        symbol: u32::from(TEXT_SECTION),
        outer: false,
    }
}
