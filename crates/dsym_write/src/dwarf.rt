//! Segment `__DWARF`.

ghost use Rattle.std.specs.Prelude.{◌≡◌, ◌+◌, ◌++◌, ◌<◌, ◌^◌, OnOk, map};
ghost use Rattle.macho_read.specs.Spelling.{padded, section_bytes};
ghost use Rattle.dsym_write.specs.Bundle.{dwarf_section, name_of_part};
ghost use Rattle.dsym_write.specs.Pieces.{records_from, sized_bytes, total, with_size};

use ds_base::macho::{
    S_ATTR_DEBUG, SECT_DEBUG_ABBREV, SECT_DEBUG_ARANGES, SECT_DEBUG_FRAME, SECT_DEBUG_INFO,
    SECT_DEBUG_LINE, SECT_DEBUG_LINE_STR, SECT_DEBUG_LOC, SECT_DEBUG_LOCLISTS, SECT_DEBUG_RANGES,
    SECT_DEBUG_RNGLISTS, SECT_DEBUG_STR, SEG_DWARF,
};
use ds_base::{Bytes, NoMemory, Part};
use layout::{Layout, Section, section_size};
use macho_write::{SectionNumbers, append_section};

/// Puts the records of the sections that have bytes last, the first at an address and at an offset of the file.
pub(crate) fn append_parts(
    out: &mut Bytes,
    sections: &[Section],
    layout: &Layout,
    addr: u64,
    offset: u128,
) -> Result<(), NoMemory>
    requires above { addr + total (map (with_size layout.now) sections.now) < 2 ^ 64 }
    requires small { offset + total (map (with_size layout.now) sections.now) < 2 ^ 32 }
    ensures { OnOk result (out.new ≡ out.old ++ records_from addr offset (map (with_size layout.now) sections.now)) }
{
    let mut addr = addr;
    let mut offset = offset;
    for section in sections {
        let size = section_size(layout, section.content);
        append_sized(out, section.part, size, addr, offset)?;
        addr += size;
        offset += u128::from(size);
    }
    Ok(())
}

/// Puts the record of a section last, if it has bytes.
fn append_sized(
    out: &mut Bytes,
    part: Part,
    size: u64,
    addr: u64,
    offset: u128,
) -> Result<(), NoMemory>
    ensures { OnOk result (out.new ≡ out.old ++ sized_bytes addr offset part size) }
{
    if size == 0 {
        return Ok(());
    }
    append_part(out, part, size, addr, offset, 0, 0)?;
    Ok(())
}

/// Puts the record of a part's section last, which stands at an address and at an offset of the file, and whose
/// relocations, `nreloc` of them, stand at another (mach-o/loader.h, `section_64`). Numbers wider than their fields
/// keep the lowest bits.
pub fn append_part(
    out: &mut Bytes,
    part: Part,
    size: u64,
    addr: u64,
    offset: u128,
    reloff: u128,
    nreloc: u128,
) -> Result<(), NoMemory>
    ensures { OnOk result (out.new ≡ out.old ++ section_bytes (record (dwarf_section addr offset part size) { reloff = reloff; nreloc = nreloc })) }
{
    let numbers = SectionNumbers {
        addr,
        size,
        offset,
        align: 0,
        reloff,
        nreloc,
        flags: S_ATTR_DEBUG,
        reserved1: 0,
        reserved2: 0,
        reserved3: 0,
    };
    append_section(out, &section_name(part), &SEG_DWARF, numbers)?;
    Ok(())
}

/// The name of a part's section, padded with zeros; zeros for a part that isn't written.
fn section_name(part: Part) -> [u8; 16]
    ensures { result ≡ padded (name_of_part part) }
{
    match part {
        Part::Abbrev => SECT_DEBUG_ABBREV,
        Part::Info => SECT_DEBUG_INFO,
        Part::Str => SECT_DEBUG_STR,
        Part::Line => SECT_DEBUG_LINE,
        Part::LineStr => SECT_DEBUG_LINE_STR,
        Part::Ranges => SECT_DEBUG_RANGES,
        Part::Rnglists => SECT_DEBUG_RNGLISTS,
        Part::Loc => SECT_DEBUG_LOC,
        Part::Loclists => SECT_DEBUG_LOCLISTS,
        Part::Aranges => SECT_DEBUG_ARANGES,
        Part::Frame => SECT_DEBUG_FRAME,
        _ => [0; 16],
    }
}
