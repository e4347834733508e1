//! The header and the load commands (mach-o/loader.h).

ghost use Rattle.std.specs.Prelude.{◌≡◌, ◌+◌, ◌<◌, ◌^◌, ◌++◌, IfOk, OnOk};
ghost use Rattle.dsym_write.specs.Pieces;
ghost use Rattle.dsym_write.specs.Pieces.{ArePlaces, commands_count, commands_front, dwarf_text};

use crate::dwarf::append_parts;
use crate::page::page_end;
use crate::places::Places;
use ds_base::macho::{LC_SEGMENT_64, MH_DSYM, SEG_DWARF, VM_PROT_ALL, VM_PROT_DEFAULT};
use ds_base::{Bytes, NoMemory};
use layout::{Layout, SECTIONS};
use macho_read::Image;
use macho_write::{
    SegmentNumbers, append_command, append_header, append_segment, append_segments, append_symtab,
    append_uuid, count_uuid,
};
use std::alloc::Global;

/// The header and the load commands of the file.
pub(crate) fn commands_of(
    alloc: Global,
    program: &Image,
    layout: &Layout,
    places: Places,
) -> Result<Bytes, NoMemory>
    requires places { ArePlaces program.now layout.now places }
    requires small { places.size < 2 ^ 32 }
    ensures { IfOk result (λ bytes. bytes ≡ commands_front program.now places layout.now) }
{
    let mut out = Bytes::new(alloc);
    let count = count_commands(program);
    append_header(
        &mut out,
        program.cpu,
        program.sub,
        MH_DSYM,
        count,
        places.commands,
    )?;
    append_uuid(&mut out, &program.uuid)?;
    append_symtab(&mut out, places.symoff, places.nsyms, places.strsize)?;
    append_segments(
        alloc,
        &mut out,
        program.segments.as_slice(),
        program.sections.as_slice(),
        false,
    )?;
    append_dwarf(alloc, &mut out, layout, places)?;
    Ok(out)
}

/// How many commands there are. The symbol table's and segment `__DWARF`'s stand beside the program's own.
fn count_commands(program: &Image) -> u128
    ensures { result ≡ commands_count program.now }
{
    count_uuid(&program.uuid) + 2 + program.segments.len() as u128
}

/// Puts segment `__DWARF` last, with its sections.
fn append_dwarf(
    alloc: Global,
    out: &mut Bytes,
    layout: &Layout,
    places: Places,
) -> Result<(), NoMemory>
    requires contents { places.contents ≡ Pieces.total (Pieces.sized layout.now) }
    requires above { places.vmaddr + places.contents < 2 ^ 64 }
    requires small { places.offset + places.contents < 2 ^ 32 }
    ensures { OnOk result (out.new ≡ out.old ++ dwarf_text places layout.now) }
{
    let mut body = Bytes::new(alloc);
    append_segment(&mut body, &SEG_DWARF, dwarf_numbers(places))?;
    append_parts(&mut body, &SECTIONS, layout, places.vmaddr, places.offset)?;
    append_command(out, LC_SEGMENT_64, body.as_slice())?;
    Ok(())
}

/// The numbers of segment `__DWARF`. It may be read, written and run at most, and is read and written.
fn dwarf_numbers(places: Places) -> SegmentNumbers
    requires contents { places.contents < 2 ^ 32 }
    requires offset { places.offset < 2 ^ 32 }
    ensures { result ≡ Pieces.dwarf_numbers places }
{
    SegmentNumbers {
        vmaddr: places.vmaddr,
        vmsize: page_end(places.contents) as u64,
        fileoff: places.offset as u64,
        filesize: places.contents as u64,
        maxprot: VM_PROT_ALL,
        initprot: VM_PROT_DEFAULT,
        sections: u128::from(places.sections),
        flags: 0,
    }
}
