//! The records of segments and sections, by their names and numbers (mach-o/loader.h).

ghost use Rattle.std.specs.Prelude.{◌≡◌, ◌++◌, OnOk};
ghost use Rattle.macho_read.specs.Spelling.{padded, section_bytes, segment_fields, spelled};
ghost use Rattle.macho_write.specs.Records.{section_with, segment_with};

use crate::fields::{append_longs, append_name, append_words};
use ds_base::{Bytes, NoMemory};

/// The numbers of a segment command behind its name (`segment_command_64`).
#[derive(Clone, Copy)]
pub struct SegmentNumbers {
    pub vmaddr: u64,
    pub vmsize: u64,
    pub fileoff: u64,
    pub filesize: u64,
    pub maxprot: u32,
    pub initprot: u32,
    pub sections: u128,
    pub flags: u32,
}

/// The numbers of a section record behind its names (`section_64`).
#[derive(Clone, Copy)]
pub struct SectionNumbers {
    pub addr: u64,
    pub size: u64,
    pub offset: u128,
    pub align: u32,
    pub reloff: u128,
    pub nreloc: u128,
    pub flags: u32,
    pub reserved1: u32,
    pub reserved2: u32,
    pub reserved3: u32,
}

/// Puts what stands between the size of a segment command and its sections last: its name, padded with zeros to 16
/// bytes, and its numbers. A longer name stands in full.
pub fn append_segment(out: &mut Bytes, name: &[u8], numbers: SegmentNumbers) -> Result<(), NoMemory>
    ensures { OnOk result (out.new ≡ out.old ++ (padded name.now ++ spelled (segment_fields numbers.fileoff numbers.filesize (segment_with name.now numbers)))) }
{
    append_name(out, name)?;
    append_longs(
        out,
        &[
            numbers.vmaddr,
            numbers.vmsize,
            numbers.fileoff,
            numbers.filesize,
        ],
    )?;
    append_words(
        out,
        &[
            u128::from(numbers.maxprot),
            u128::from(numbers.initprot),
            numbers.sections,
            u128::from(numbers.flags),
        ],
    )?;
    Ok(())
}

/// Puts the record of a section last: its name and that of its segment, each padded with zeros to 16 bytes, and its
/// numbers. A longer name stands in full.
pub fn append_section(
    out: &mut Bytes,
    name: &[u8],
    segment: &[u8],
    numbers: SectionNumbers,
) -> Result<(), NoMemory>
    ensures { OnOk result (out.new ≡ out.old ++ section_bytes (section_with name.now segment.now numbers)) }
{
    append_name(out, name)?;
    append_name(out, segment)?;
    append_longs(out, &[numbers.addr, numbers.size])?;
    append_words(
        out,
        &[
            numbers.offset,
            u128::from(numbers.align),
            numbers.reloff,
            numbers.nreloc,
            u128::from(numbers.flags),
            u128::from(numbers.reserved1),
            u128::from(numbers.reserved2),
            u128::from(numbers.reserved3),
        ],
    )?;
    Ok(())
}
