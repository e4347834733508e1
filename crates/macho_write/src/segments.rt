//! The segments of an image, with the records of their sections (mach-o/loader.h).

ghost use Rattle.std.specs.Prelude.{◌≡◌, ◌++◌, OnOk, if◌then◌else◌};
ghost use Rattle.std.specs.List.{flat_map};
ghost use Rattle.macho_read.specs.ImageSpelling.{command_of};
ghost use Rattle.macho_read.specs.Spelling.{command_bytes, section_bytes};
ghost use Rattle.macho_write.specs.Records.{commands_text, placed_section, placed_sections, segment_command, segment_commands};

use crate::commands::append_command;
use crate::records::{SectionNumbers, SegmentNumbers, append_section, append_segment};
use ds_base::macho::LC_SEGMENT_64;
use ds_base::{Bytes, NoMemory};
use macho_read::{Section, Segment, split_sections};
use std::alloc::Global;

/// Puts the commands of an image's segments last, each with the records of its own sections and without bytes in the
/// file.
///
/// Where sections and their relocations stand in the image's file is told if `placed`; else these numbers are 0.
pub fn append_segments(
    alloc: Global,
    out: &mut Bytes,
    segments: &[Segment],
    sections: &[Section],
    placed: bool,
) -> Result<(), NoMemory>
    ensures { OnOk result (out.new ≡ out.old ++ commands_text (segment_commands placed segments.now sections.now)) }
{
    let mut left = sections;
    for segment in segments {
        let (own, others) = split_sections(left, segment.sections as usize);
        append_own_segment(alloc, out, segment, own, placed)?;
        left = others;
    }
    Ok(())
}

/// Puts a segment last, with its own sections (`segment_command_64`).
fn append_own_segment(
    alloc: Global,
    out: &mut Bytes,
    segment: &Segment,
    own: &[Section],
    placed: bool,
) -> Result<(), NoMemory>
    ensures { OnOk result (out.new ≡ out.old ++ command_bytes (command_of (segment_command placed (segment.now, own.now)))) }
{
    let numbers = SegmentNumbers {
        vmaddr: segment.vmaddr,
        vmsize: segment.vmsize,
        fileoff: 0,
        filesize: 0,
        maxprot: segment.maxprot,
        initprot: segment.initprot,
        sections: u128::from(segment.sections),
        flags: segment.flags,
    };
    let mut body = Bytes::new(alloc);
    append_segment(&mut body, segment.name.as_slice(), numbers)?;
    append_sections(&mut body, own, placed)?;
    append_command(out, LC_SEGMENT_64, body.as_slice())?;
    Ok(())
}

/// Puts the records of sections last.
fn append_sections(out: &mut Bytes, sections: &[Section], placed: bool) -> Result<(), NoMemory>
    ensures { OnOk result (out.new ≡ out.old ++ flat_map section_bytes (placed_sections placed sections.now)) }
{
    for section in sections {
        append_own_section(out, section, placed)?;
    }
    Ok(())
}

/// Puts the record of a section last (`section_64`).
fn append_own_section(out: &mut Bytes, section: &Section, placed: bool) -> Result<(), NoMemory>
    ensures { OnOk result (out.new ≡ out.old ++ section_bytes (placed_section placed section.now)) }
{
    let numbers = SectionNumbers {
        addr: section.addr,
        size: section.size,
        offset: told_if(placed, section.offset),
        align: section.align,
        reloff: told_if(placed, section.reloff),
        nreloc: told_if(placed, section.nreloc),
        flags: section.flags,
        reserved1: section.reserved1,
        reserved2: section.reserved2,
        reserved3: section.reserved3,
    };
    append_section(
        out,
        section.name.as_slice(),
        section.segment.as_slice(),
        numbers,
    )?;
    Ok(())
}

/// A number, if it is told, or else 0.
fn told_if(told: bool, n: u32) -> u128
    ensures { result ≡ (if told then n else 0) }
{
    if told { u128::from(n) } else { 0 }
}
