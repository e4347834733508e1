//! The records of commands, each from its first byte (mach-o/loader.h).

ghost use Rattle.std.specs.Prelude.{◌≡◌, ◌+◌, ◌≤◌, length, IfOk};
ghost use Rattle.macho_read.specs.Records.{section_of, segment_of, symtab_of, uuid_of};

use crate::fields::{read_name, u32_at, u64_at};
use crate::image::{Section, Segment};
use ds_base::{NoMemory, cut};
use std::alloc::Global;

/// What a symbol table command says: where the symbols and their strings stand in the file.
#[derive(Clone, Copy)]
pub(crate) struct Symtab {
    pub symoff: u32,
    pub nsyms: u32,
    pub stroff: u32,
    pub strsize: u32,
}

/// A segment command without its sections.
#[tactic(auto, unfolding(crate::specs::Records::segment_of))]
pub(crate) fn read_segment(alloc: Global, command: &[u8]) -> Result<Segment, NoMemory>
    requires { 72 ≤ length command.now }
    ensures { IfOk result (λ segment. segment ≡ segment_of command.now) }
{
    Ok(Segment {
        name: read_name(alloc, command, 8)?,
        vmaddr: u64_at(command, 24),
        vmsize: u64_at(command, 32),
        maxprot: u32_at(command, 56),
        initprot: u32_at(command, 60),
        flags: u32_at(command, 68),
        sections: u32_at(command, 64),
    })
}

/// The record of a section.
#[tactic(auto, unfolding(crate::specs::Records::section_of))]
pub(crate) fn read_section(alloc: Global, bytes: &[u8]) -> Result<Section, NoMemory>
    requires { 80 ≤ length bytes.now }
    ensures { IfOk result (λ section. section ≡ section_of bytes.now) }
{
    Ok(Section {
        name: read_name(alloc, bytes, 0)?,
        segment: read_name(alloc, bytes, 16)?,
        addr: u64_at(bytes, 32),
        size: u64_at(bytes, 40),
        offset: u32_at(bytes, 48),
        align: u32_at(bytes, 52),
        reloff: u32_at(bytes, 56),
        nreloc: u32_at(bytes, 60),
        flags: u32_at(bytes, 64),
        reserved1: u32_at(bytes, 68),
        reserved2: u32_at(bytes, 72),
        reserved3: u32_at(bytes, 76),
    })
}

/// A symbol table command.
#[tactic(auto, unfolding(crate::specs::Records::symtab_of))]
pub(crate) fn read_symtab(command: &[u8]) -> Symtab
    requires { 24 ≤ length command.now }
    ensures { result ≡ symtab_of command.now }
{
    Symtab {
        symoff: u32_at(command, 8),
        nsyms: u32_at(command, 12),
        stroff: u32_at(command, 16),
        strsize: u32_at(command, 20),
    }
}

/// The UUID of its command.
#[tactic(auto, unfolding(crate::specs::Records::uuid_of))]
pub(crate) fn read_uuid(command: &[u8]) -> [u8; 16]
    requires { 24 ≤ length command.now }
    ensures { result ≡ uuid_of command.now }
{
    let mut uuid = [0; 16];
    uuid.copy_from_slice(cut(command, 8, 16));
    uuid
}
