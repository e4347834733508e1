//! How large the parts of an image file are, and where they stand.

ghost use Rattle.std.specs.Prelude.{◌≡◌, ◌+◌, ◌*◌, ◌<◌, ◌≤◌, ◌^◌, All, Ok, filter, length, map, not};
ghost use Rattle.std.specs.Option.{option_map_or};
ghost use Rattle.ds_base.specs.MachONumbers.{UUID_COMMAND_SIZE as uuid_command_size};
ghost use Rattle.macho_read.specs.declared.kind.Role.TheVariants as roles;
ghost use Rattle.macho_read.specs.Commands.{last_end};
ghost use Rattle.macho_read.specs.Kind.{kind_of};
ghost use Rattle.macho_read.specs.Sound.{IsSound};
ghost use Rattle.macho_read.specs.Standings;
ghost use Rattle.dsym_write.specs.Bundle;
ghost use Rattle.dsym_write.specs.Bundle.{end_of};
ghost use Rattle.macho_write.specs.Records.{IsUuidLen};
ghost use Rattle.dsym_write.specs.Pieces.{ArePlaces, HasRoomAbove, commands_size, count_of, total, with_size};

use crate::page::page_end;
use ds_base::macho::{
    MACH_HEADER_64_SIZE, NLIST_64_SIZE, SECTION_64_SIZE, SEGMENT_COMMAND_64_SIZE,
    SYMTAB_COMMAND_SIZE,
};
use layout::{Layout, SECTIONS, Section, section_size};
use macho_read::{Image, Segment, Symbols, is_stab};
use macho_write::strings_size;

/// The size of what all load commands begin with (`load_command`): the command, and its own size.
const LOAD_COMMAND_SIZE: u64 = 8;

/// The parts of an image file; sizes, and offsets from its start, in bytes. Those of a file that is too large to be written
/// have 128 bits.
#[derive(Clone, Copy)]
pub(crate) struct Places {
    /// How many sections have bytes.
    pub(crate) sections: u64,
    /// The size of all sections.
    pub(crate) contents: u128,
    /// The size of all commands.
    pub(crate) commands: u128,
    /// Where the symbols stand, and how many there are.
    pub(crate) symoff: u128,
    pub(crate) nsyms: u64,
    /// Where the strings stand, and their size.
    pub(crate) stroff: u128,
    pub(crate) strsize: u128,
    /// Where the sections stand.
    pub(crate) offset: u128,
    /// The size of the file.
    pub(crate) size: u128,
    /// The address of the first section.
    pub(crate) vmaddr: u64,
}

/// The places of the parts of an image file.
pub(crate) fn places_of(program: &Image, layout: &Layout) -> Places
    requires sound { IsSound program.now }
    requires kind { kind_of program.now roles.Program ≡ Ok tt }
    ensures { ArePlaces program.now layout.now result }
{
    let sections = count_written(&SECTIONS, layout);
    let contents = written_size(&SECTIONS, layout);
    let commands = size_of_commands(program, sections);
    let symoff = u128::from(MACH_HEADER_64_SIZE) + commands;
    let nsyms = count_kept(&program.symbols);
    let stroff = symoff + u128::from(NLIST_64_SIZE) * u128::from(nsyms);
    let strsize = strings_size(&program.symbols, false);
    let offset = page_end(stroff + strsize);
    Places {
        sections,
        contents,
        commands,
        symoff,
        nsyms,
        stroff,
        strsize,
        offset,
        size: offset + contents,
        vmaddr: first_address(program.segments.as_slice()),
    }
}

/// How many sections have bytes.
fn count_written(sections: &[Section], layout: &Layout) -> u64
    ensures { result ≡ count_of (map (with_size layout.now) sections.now) }
{
    let mut count = 0;
    for section in sections {
        if section_size(layout, section.content) != 0 {
            count += 1;
        }
    }
    count
}

/// The size of sections.
fn written_size(sections: &[Section], layout: &Layout) -> u128
    requires few { length sections.now < 2 ^ 32 }
    ensures size { result ≡ total (map (with_size layout.now) sections.now) }
    ensures room { result < 2 ^ 96 }
{
    let mut size = 0;
    for section in sections {
        size += u128::from(section_size(layout, section.content));
    }
    size
}

/// How many symbols are not stabs.
fn count_kept(symbols: &Symbols) -> u64
    ensures { result ≡ length (filter (λ s. not (Standings.is_stab s)) symbols.now) }
{
    let mut count = 0;
    for i in 0..symbols.len() {
        let symbol = symbols.symbol(i);
        if !is_stab(symbol) {
            count += 1;
        }
    }
    count
}

/// The size of the commands, where `__DWARF` has so many sections.
fn size_of_commands(program: &Image, sections: u64) -> u128
    ensures size { result ≡ commands_size program.now sections }
    ensures room { result < 2 ^ 96 }
    ensures uuid { IsUuidLen program.now.uuid }
{
    let uuid = uuid_size(&program.uuid);
    let segments = program.segments.len() as u128 + 1;
    let sections = program.sections.len() as u128 + u128::from(sections);
    u128::from(uuid + u64::from(SYMTAB_COMMAND_SIZE))
        + u128::from(SEGMENT_COMMAND_64_SIZE) * segments
        + u128::from(SECTION_64_SIZE) * sections
}

/// The size of a UUID command, if there is a UUID.
fn uuid_size(uuid: &Option<[u8; 16]>) -> u64
    ensures size { result ≡ option_map_or (λ uuid. uuid_command_size) uuid.now 0 }
    ensures len { IsUuidLen uuid.now }
{
    match uuid {
        Some(bytes) => uuid_command_len(bytes),
        None => 0,
    }
}

/// The size of a UUID command.
fn uuid_command_len(uuid: &[u8; 16]) -> u64
    ensures size { result ≡ uuid_command_size }
    ensures len { length uuid.now ≡ 16 }
{
    LOAD_COMMAND_SIZE + uuid.len() as u64
}

/// The address of the first section, behind all segments.
fn first_address(segments: &[Segment]) -> u64
    requires { All HasRoomAbove segments.now }
    ensures place { result ≡ Bundle.page_end (end_of segments.now) }
    ensures room { result ≤ last_end }
{
    page_end(u128::from(last_address(segments))) as u64
}

/// The place behind the last address of segments.
fn last_address(segments: &[Segment]) -> u64
    requires { All HasRoomAbove segments.now }
    ensures end { result ≡ end_of segments.now }
    ensures room { result ≤ last_end }
{
    let mut last = 0;
    for segment in segments {
        last = last.max(end_of_segment(segment));
    }
    last
}

/// The place behind the last address of a segment.
fn end_of_segment(segment: &Segment) -> u64
    requires { HasRoomAbove segment.now }
    ensures { result ≡ segment.now.vmaddr + segment.now.vmsize }
{
    segment.vmaddr + segment.vmsize
}
