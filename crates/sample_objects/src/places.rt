//! Where the parts of an object file stand.

ghost use Rattle.std.specs.Prelude.{◌≡◌, ◌<◌, ◌^◌, length};
ghost use Rattle.dsym_write.specs.Bundle.{contents};
ghost use Rattle.sample_objects.specs.ObjectFile;
ghost use Rattle.sample_objects.specs.ObjectFile.{commands_len, line_relocs, sections_of};

use crate::spec::ObjectSpec;
use ds_base::macho::{
    MACH_HEADER_64_SIZE, RELOCATION_INFO_SIZE, SECTION_64_SIZE, SEGMENT_COMMAND_64_SIZE,
    SYMTAB_COMMAND_SIZE,
};
use macho_write::strings_size;

/// The parts of an object file; sizes, and offsets from its start, in bytes. Those have 128 bits that may be wider than
/// their fields.
#[derive(Clone, Copy)]
pub(crate) struct Places {
    /// The size of the two commands.
    pub(crate) commands: u128,
    /// How many debug sections there are, where the first stands, and the size of all.
    pub(crate) sections: u64,
    pub(crate) offset: u64,
    pub(crate) contents: u64,
    /// Where the relocations of `__debug_info` stand, and how many there are; both are 0 where there is none.
    pub(crate) reloff: u128,
    pub(crate) nreloc: u128,
    /// The same of `__debug_line`.
    pub(crate) line_reloff: u128,
    pub(crate) line_nreloc: u128,
    /// Where the symbols stand, how many there are, and the size of their strings.
    pub(crate) symoff: u128,
    pub(crate) nsyms: u64,
    pub(crate) strsize: u128,
}

/// The places of the parts of an object file with so many debug sections and relocations of the line table, of which
/// the size of all debug sections is told.
pub(crate) fn places_of(spec: &ObjectSpec, sections: usize, size: usize, moved: usize) -> Places
    requires few { sections < 2 ^ 32 }
    requires sections { sections ≡ length (sections_of spec.now) }
    requires size { size ≡ length (contents (sections_of spec.now)) }
    requires moved { moved ≡ length (line_relocs spec.now.unit) }
    ensures places { result ≡ ObjectFile.places_of spec.now }
    ensures room { result.symoff < 2 ^ 96 }
{
    let sections = sections as u64;
    let contents = size as u64;
    let nreloc = spec.relocs.len() as u128;
    let commands = size_of_commands(sections);
    let offset = u64::from(MACH_HEADER_64_SIZE) + commands;
    let relocs = u128::from(offset) + u128::from(contents);
    let line_relocs = relocs + u128::from(RELOCATION_INFO_SIZE) * nreloc;
    let line_nreloc = moved as u128;
    let symoff = line_relocs + u128::from(RELOCATION_INFO_SIZE) * line_nreloc;
    Places {
        commands: u128::from(commands),
        sections,
        offset,
        contents,
        reloff: place_of_some(relocs, nreloc),
        nreloc,
        line_reloff: place_of_some(line_relocs, line_nreloc),
        line_nreloc,
        symoff,
        nsyms: spec.symbols.len() as u64,
        strsize: strings_size(&spec.symbols, true),
    }
}

/// A place of so many items, or 0 where there is none.
fn place_of_some(place: u128, count: u128) -> u128
    ensures { result ≡ ObjectFile.place_of_some place count }
{
    if count == 0 { 0 } else { place }
}

/// The size of the two commands, where there are so many debug sections.
fn size_of_commands(sections: u64) -> u64
    requires { sections < 2 ^ 32 }
    ensures { result ≡ commands_len sections }
{
    let records = u64::from(SECTION_64_SIZE) * (1 + sections);
    u64::from(SEGMENT_COMMAND_64_SIZE) + records + u64::from(SYMTAB_COMMAND_SIZE)
}
