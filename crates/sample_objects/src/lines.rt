//! The relocations of a line table.

ghost use Rattle.std.specs.Prelude.{◌≡◌, ◌≤◌, ◌<◌, ◌+◌, ◌^◌, length, map, IfOk};
ghost use Rattle.std.specs.List.{All, sum_by};
ghost use Rattle.dwarf_types.specs.LineProgram.{sequence_bytes};
ghost use Rattle.dwarf_types.specs.LineTable.{line_table_bytes};
ghost use Rattle.dwarf_types.specs.SeenLines.{sequence_seen};
ghost use Rattle.sample_objects.specs.Lines.{places_by};
ghost use Rattle.sample_objects.specs.ObjectFile;
ghost use Rattle.sample_objects.specs.ObjectFile.{counts_from_text, operands_of};
ghost use Rattle.unit_draft.specs.Drafted.{lines_len};

use crate::file::TEXT_SECTION;
use ds_base::{Bytes, List, NoMemory};
use dwarf_types::{OutLines, OutUnit, SequenceRef, Sequences};
use line_write::append_sequence;
use reloc_table::Reloc;
use std::alloc::Global;

/// Where the operand of a set_address stands, from its first byte on.
const OPERAND_OFFSET: u32 = 3;

/// A relocation for the address of each sequence of a unit's line table, which has so many bytes.
pub(crate) fn line_relocs(alloc: Global, unit: &OutUnit, size: u64) -> Result<List<Reloc>, NoMemory>
    requires size { size ≡ lines_len unit.now }
    requires small { size < 2 ^ 32 }
    ensures { IfOk result (λ relocs. relocs ≡ ObjectFile.line_relocs unit.now) }
{
    match &unit.lines {
        Some(lines) => relocs_of_table(alloc, unit.version, lines, size),
        None => Ok(List::new(alloc)),
    }
}

fn relocs_of_table(
    alloc: Global,
    version: u16,
    lines: &OutLines,
    size: u64,
) -> Result<List<Reloc>, NoMemory>
    requires size { size ≡ length (line_table_bytes version (λ text. 0) lines.now) }
    requires small { size < 2 ^ 32 }
    ensures { IfOk result (λ relocs. relocs ≡ map counts_from_text (operands_of version lines.now)) }
{
    let sizes = sizes_of(alloc, &lines.sequences)?;
    let program = total(sizes.as_slice());
    let relocs = relocs_from(alloc, sizes.as_slice(), size - program)?;
    Ok(relocs)
}

/// The sizes of sequences in bytes.
fn sizes_of(alloc: Global, sequences: &Sequences) -> Result<List<u64>, NoMemory>
    ensures { IfOk result (λ sizes. sizes ≡ map (λ s. length (sequence_bytes s)) sequences.now) }
{
    let mut sizes = List::new(alloc);
    for i in 0..sequences.len() {
        let size = size_of(alloc, sequences.sequence(i))?;
        sizes.push(size)?;
    }
    Ok(sizes)
}

/// The size of a sequence in bytes.
fn size_of(alloc: Global, sequence: SequenceRef<'_>) -> Result<u64, NoMemory>
    ensures { IfOk result (λ size. size ≡ length (sequence_bytes (sequence_seen sequence.entry))) }
{
    let mut bytes = Bytes::new(alloc);
    append_sequence(&mut bytes, sequence)?;
    Ok(bytes.len() as u64)
}

/// The sum of sizes.
fn total(sizes: &[u64]) -> u64
    requires { sum_by (λ n. n) sizes.now < 2 ^ 32 }
    ensures { result ≡ sum_by (λ n. n) sizes.now }
{
    let mut total = 0;
    for size in sizes {
        total += *size;
    }
    total
}

/// The relocations of sequences of these sizes, the first at a place.
fn relocs_from(alloc: Global, sizes: &[u64], start: u64) -> Result<List<Reloc>, NoMemory>
    requires each { All (λ n. 11 ≤ n) sizes.now }
    requires small { start + sum_by (λ n. n) sizes.now < 2 ^ 32 }
    ensures { IfOk result (λ relocs. relocs ≡ map counts_from_text (places_by start sizes.now)) }
{
    let mut relocs = List::new(alloc);
    let mut at = start;
    for size in sizes {
        let reloc = reloc_at(at as u32 + OPERAND_OFFSET);
        relocs.push(reloc)?;
        at += *size;
    }
    Ok(relocs)
}

/// The relocation of an address in the section of the code.
fn reloc_at(place: u32) -> Reloc
    ensures { result ≡ counts_from_text place }
{
    Reloc {
        place,
        symbol: u32::from(TEXT_SECTION),
        outer: false,
    }
}
