//! The segment of an object file (mach-o/loader.h).

ghost use Rattle.std.specs.Prelude.{◌≡◌, ◌<◌, ◌^◌, ◌++◌, OnOk, length};
ghost use Rattle.std.specs.List.{flat_map};
ghost use Rattle.macho_read.specs.ImageSpelling.{command_of};
ghost use Rattle.macho_read.specs.Spelling.{command_bytes, section_bytes};
ghost use Rattle.sample_objects.specs.ObjectFile;
ghost use Rattle.sample_objects.specs.ObjectFile.{debug_section, debug_sections, segment_command, text_section};

use crate::file::TEXT_SIZE;
use crate::places::Places;
use ds_base::macho::{LC_SEGMENT_64, SECT_TEXT, SEG_TEXT, VM_PROT_ALL};
use ds_base::{Bytes, NoMemory, Part};
use dsym_write::append_part;
use macho_write::{SectionNumbers, SegmentNumbers, append_command, append_section, append_segment};
use std::alloc::Global;

/// Puts the segment last, with the records of its sections (`segment_command_64`).
pub(crate) fn append_object_segment(
    alloc: Global,
    out: &mut Bytes,
    places: Places,
    sized: &[(Part, u64)],
) -> Result<(), NoMemory>
    requires few { length sized.now < 2 ^ 32 }
    ensures { OnOk result (out.new ≡ out.old ++ command_bytes (command_of (segment_command places sized.now))) }
{
    let numbers = SegmentNumbers {
        vmaddr: 0,
        vmsize: places.contents,
        fileoff: places.offset,
        filesize: places.contents,
        maxprot: VM_PROT_ALL,
        initprot: VM_PROT_ALL,
        sections: 1 + u128::from(places.sections),
        flags: 0,
    };
    let mut body = Bytes::new(alloc);
    append_segment(&mut body, &[], numbers)?;
    append_code_section(&mut body)?;
    append_debug_sections(&mut body, places, sized)?;
    append_command(out, LC_SEGMENT_64, body.as_slice())?;
    Ok(())
}

/// Puts the record of the section of the code last (`section_64`).
fn append_code_section(out: &mut Bytes) -> Result<(), NoMemory>
    ensures { OnOk result (out.new ≡ out.old ++ section_bytes text_section) }
{
    let numbers = SectionNumbers {
        addr: 0,
        size: u64::from(TEXT_SIZE),
        offset: 0,
        align: 0,
        reloff: 0,
        nreloc: 0,
        flags: 0,
        reserved1: 0,
        reserved2: 0,
        reserved3: 0,
    };
    append_section(out, &SECT_TEXT, &SEG_TEXT, numbers)?;
    Ok(())
}

/// Puts the records of the debug sections last.
fn append_debug_sections(
    out: &mut Bytes,
    places: Places,
    sized: &[(Part, u64)],
) -> Result<(), NoMemory>
    requires { length sized.now < 2 ^ 32 }
    ensures { OnOk result (out.new ≡ out.old ++ flat_map section_bytes (debug_sections places places.offset sized.now)) }
{
    let mut offset = u128::from(places.offset);
    for (part, size) in sized {
        append_debug_section(out, places, offset, *part, *size)?;
        offset += u128::from(*size);
    }
    Ok(())
}

/// Puts the record of a debug section last, whose bytes stand at an offset.
fn append_debug_section(
    out: &mut Bytes,
    places: Places,
    offset: u128,
    part: Part,
    size: u64,
) -> Result<(), NoMemory>
    ensures { OnOk result (out.new ≡ out.old ++ section_bytes (debug_section places offset part size)) }
{
    let reloff = reloff_in(places, part);
    let nreloc = nreloc_in(places, part);
    append_part(out, part, size, 0, offset, reloff, nreloc)?;
    Ok(())
}

/// Where the relocations of a section stand; 0 where it has none.
fn reloff_in(places: Places, part: Part) -> u128
    ensures { result ≡ ObjectFile.reloff_in places part }
{
    match part {
        Part::Info => places.reloff,
        Part::Line => places.line_reloff,
        _ => 0,
    }
}

/// How many relocations a section has.
fn nreloc_in(places: Places, part: Part) -> u128
    ensures { result ≡ ObjectFile.nreloc_in places part }
{
    match part {
        Part::Info => places.nreloc,
        Part::Line => places.line_nreloc,
        _ => 0,
    }
}
