//! The load commands of a file, in order (mach-o/loader.h).

ghost use Rattle.std.specs.Prelude.{◌≡◌, ◌+◌, ◌*◌, ◌≤◌, ◌++◌, length, IfOk, OnOk};
ghost use Rattle.ds_base.specs.Reading.{Finds, Gives};
ghost use Rattle.macho_read.specs.Fields.{number_of};
ghost use Rattle.macho_read.specs.Commands.{area_of, command_at, commands_of, gathered_of, IsWhole, joined, sections_of, what_is_in};

use crate::fields::{is_named, name_at, u32_at, u64_at};
use crate::header::Header;
use crate::image::{Section, Segment};
use crate::records::{Symtab, read_section, read_segment, read_symtab, read_uuid};
use ds_base::macho::{
    LC_SEGMENT_64, LC_SYMTAB, LC_UUID, MACH_HEADER_64_SIZE, SECTION_64_SIZE, SEG_DWARF,
    SEGMENT_COMMAND_64_SIZE, SYMTAB_COMMAND_SIZE, UUID_COMMAND_SIZE,
};
use ds_base::{Fault, Kind, List, NoMemory, Part, ReadError, bytes_from, cut};
use std::alloc::Global;

/// What is kept of the commands: the first UUID, the first symbol table, all segments with their sections.
#[derive(Drop)]
pub(crate) struct Commands {
    pub uuid: Option<[u8; 16]>,
    pub symtab: Option<Symtab>,
    pub segments: List<Segment>,
    pub sections: List<Section>,
}

/// The greatest place behind the last address of a segment, so that a `__DWARF` segment finds room above.
const LAST_END: u64 = 0xffff_fffe_0000_0000;

/// All commands of a file. Faults are placed at the command's first byte in the file.
pub(crate) fn read_commands(
    alloc: Global,
    bytes: &[u8],
    header: Header,
) -> Result<Commands, ReadError>
    requires { 32 + header.sizeofcmds ≤ length bytes.now }
    ensures { Gives (λ commands. commands) result (gathered_of (commands_of header.ncmds 32 (area_of header bytes.now))) }
{
    let mut area = cut(
        bytes,
        MACH_HEADER_64_SIZE as usize,
        header.sizeofcmds as usize,
    );
    let mut place = u64::from(MACH_HEADER_64_SIZE);
    let mut commands = Commands {
        uuid: None,
        symtab: None,
        segments: List::new(alloc),
        sections: List::new(alloc),
    };
    for _ in 0..header.ncmds {
        let command = next_command(area, place)?;
        take_command(alloc, command, &mut commands)?;
        place += command.len() as u64;
        area = bytes_from(area, command.len());
    }
    Ok(commands)
}

/// The command that an area begins with. The area begins at `place` in the file.
#[tactic(auto, unfolding(crate::specs::Commands::command_at))]
fn next_command(area: &[u8], place: u64) -> Result<&[u8], Fault>
    ensures read { Finds (λ command. command.now) result (command_at place area.now) }
    ensures whole { IfOk result (λ command. IsWhole command.now) }
    ensures within { IfOk result (λ command. length command.now ≤ length area.now) }
{
    if area.len() < 8 {
        return Err(bad_command(place));
    }
    let size = u32_at(area, 4) as usize;
    if size < 8 || area.len() < size {
        return Err(bad_command(place));
    }
    let command = &area[..size];
    if is_bad(command) {
        return Err(bad_command(place));
    }
    Ok(command)
}

/// The fault of the command at `place` in the file.
fn bad_command(place: u64) -> Fault
    ensures { result ≡ Rattle.macho_read.specs.Commands.bad_command place }
{
    Fault {
        kind: Kind::BadCommand,
        section: Part::Commands,
        place,
    }
}

/// Whether a command is too small for what it holds, or a segment's addresses are too great.
#[tactic(auto, unfolding(crate::specs::Commands::is_bad))]
fn is_bad(command: &[u8]) -> bool
    requires { 8 ≤ length command.now }
    ensures { result ≡ Rattle.macho_read.specs.Commands.is_bad command.now }
{
    match u32_at(command, 0) {
        LC_SEGMENT_64 => is_bad_segment(command),
        LC_SYMTAB => command.len() < SYMTAB_COMMAND_SIZE as usize,
        LC_UUID => command.len() < UUID_COMMAND_SIZE as usize,
        _ => false,
    }
}

/// The same of a segment command. Where a segment named `__DWARF` lies doesn't matter.
#[tactic(auto, unfolding(crate::specs::Commands::is_bad_segment))]
fn is_bad_segment(command: &[u8]) -> bool
    ensures { result ≡ Rattle.macho_read.specs.Commands.is_bad_segment command.now }
{
    let size = SEGMENT_COMMAND_64_SIZE as usize;
    if command.len() < size {
        return true;
    }
    let nsects = u32_at(command, 64) as usize;
    if command.len() < size + SECTION_64_SIZE as usize * nsects {
        return true;
    }
    if is_named(&SEG_DWARF, name_at(command, 8)) {
        return false;
    }
    let vmaddr = u64_at(command, 24);
    let vmsize = u64_at(command, 32);
    vmaddr > LAST_END || vmsize > LAST_END - vmaddr
}

/// Adds what a command holds to what the commands before it held.
#[tactic(auto, unfolding(crate::specs::Commands::what_is_in, crate::specs::Commands::is_bad, crate::specs::Commands::is_bad_segment))]
fn take_command(alloc: Global, command: &[u8], commands: &mut Commands) -> Result<(), NoMemory>
    requires { IsWhole command.now }
    ensures { OnOk result (commands.new ≡ joined commands.old (what_is_in command.now)) }
{
    match u32_at(command, 0) {
        LC_SEGMENT_64 => {
            commands.segments.push(read_segment(alloc, command)?)?;
            take_sections(alloc, command, &mut commands.sections)?;
        }
        LC_SYMTAB => {
            if commands.symtab.is_none() {
                commands.symtab = Some(read_symtab(command));
            }
        }
        LC_UUID => {
            if commands.uuid.is_none() {
                commands.uuid = Some(read_uuid(command));
            }
        }
        _ => {}
    }
    Ok(())
}

/// Adds the sections of a segment command.
fn take_sections(
    alloc: Global,
    command: &[u8],
    sections: &mut List<Section>,
) -> Result<(), NoMemory>
    requires { 72 + 80 * number_of 4 64 command.now ≤ length command.now }
    ensures { OnOk result (sections.new ≡ sections.old ++ sections_of command.now) }
{
    let nsects = u32_at(command, 64);
    for i in 0..nsects {
        let at = SEGMENT_COMMAND_64_SIZE as usize + SECTION_64_SIZE as usize * i as usize;
        sections.push(read_section(alloc, bytes_from(command, at))?)?;
    }
    Ok(())
}
