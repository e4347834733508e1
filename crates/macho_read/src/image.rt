//! An image: what is kept of a Mach-O file.

ghost use Rattle.std.specs.Prelude.{IfOk};
ghost use Rattle.ds_base.specs.Reading.{Gives};
ghost use Rattle.macho_read.specs.Image.{image_of};
ghost use Rattle.macho_read.specs.Sound.{IsSound};

use crate::commands::read_commands;
use crate::header::read_header;
use crate::symbol_list::Symbols;
use crate::symbols::read_symbols;
use ds_base::{Bytes, List, ReadError};
use std::alloc::Global;

/// A 64-bit little-endian Mach-O file, without the content of its sections (mach-o/loader.h).
#[derive(Drop)]
pub struct Image {
    pub cpu: u32,
    pub sub: u32,
    pub filetype: u32,
    /// That of the first UUID command.
    pub uuid: Option<[u8; 16]>,
    pub segments: List<Segment>,
    /// The sections of all segments, one segment after the other. A symbol names them by their ordinal,
    /// which counts from 1.
    pub sections: List<Section>,
    /// Those of the first symbol table command.
    pub symbols: Symbols,
}

/// A segment (mach-o/loader.h, `segment_command_64`). Its name is what stands before the first zero byte.
#[derive(Drop)]
pub struct Segment {
    pub name: Bytes,
    pub vmaddr: u64,
    pub vmsize: u64,
    pub maxprot: u32,
    pub initprot: u32,
    pub flags: u32,
    /// How many of the image's sections are its own.
    pub sections: u32,
}

/// A section (mach-o/loader.h, `section_64`). Its names are what stands before the first zero byte.
#[derive(Drop)]
pub struct Section {
    pub name: Bytes,
    pub segment: Bytes,
    pub addr: u64,
    /// In bytes.
    pub size: u64,
    /// Of its first byte in the file.
    pub offset: u32,
    pub align: u32,
    pub reloff: u32,
    pub nreloc: u32,
    pub flags: u32,
    pub reserved1: u32,
    pub reserved2: u32,
    pub reserved3: u32,
}

/// A symbol or a stab (mach-o/nlist.h, `nlist_64`), as contracts speak of it. Its name is empty where `n_strx` is 0.
#[derive(Drop)]
pub struct Symbol {
    pub name: Bytes,
    pub kind: u8,
    /// The ordinal of its section, counted from 1, or 0.
    pub sect: u8,
    pub desc: u16,
    pub value: u64,
}

/// The image of a file (mach-o/loader.h, mach-o/nlist.h).
///
/// The header is read first, then the load commands in order, then the symbols in order, and the first fault
/// ends it. Faults of the header and the commands are placed at offsets in the file, those of symbols at the
/// symbol's index, which counts from 0. They are `Truncated`, `NotMachO`, `WrongCpu`, `BadCommand` and `BadSymbols`.
/// Of several UUID or symbol table commands the first counts.
#[tactic(auto, unfolding(crate::specs::Image::image_of))]
pub fn read_image(alloc: Global, bytes: &[u8]) -> Result<Image, ReadError>
    ensures read { Gives (λ image. image) result (image_of bytes.now) }
    ensures sound { IfOk result IsSound }
{
    let header = read_header(bytes)?;
    let commands = read_commands(alloc, bytes, header)?;
    let symbols = read_symbols(alloc, bytes, commands.symtab)?;
    Ok(Image {
        cpu: header.cpu,
        sub: header.sub,
        filetype: header.filetype,
        uuid: commands.uuid,
        segments: commands.segments,
        sections: commands.sections,
        symbols,
    })
}
