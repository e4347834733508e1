//! The file of an object.

ghost use Rattle.std.specs.Prelude.{◌≡◌, ◌<◌, ◌^◌, IfOk, None, length};
ghost use Rattle.std.specs.List.{All};
ghost use Rattle.dsym_write.specs.Bundle;
ghost use Rattle.layout.specs.Lengths.{long_section, long_unit};
ghost use Rattle.sample_objects.specs.ObjectFile;
ghost use Rattle.sample_objects.specs.ObjectFile.{graph_of, object_bytes, sections_of, sized_of};

use crate::commands::append_object_segment;
use crate::lines::line_relocs;
use crate::places::places_of;
use crate::relocation::append_relocs;
use crate::sections::{contents_of, layout_of, sized_sections};
use crate::spec::ObjectSpec;
use crate::symbols::symbols_of;
use ds_base::macho::MH_OBJECT;
use ds_base::{Bytes, NoMemory, Part};
use layout::{Content, section_size};
use macho_write::{append_header, append_symtab};
use reloc_table::Reloc;
use std::alloc::Global;
use std::thread::Threads;

/// How many bytes the section of the code has.
pub const TEXT_SIZE: u32 = 0x1_0000;

/// Its ordinal among the sections.
pub const TEXT_SECTION: u8 = 1;

/// The file of an object with one unit (mach-o/loader.h).
///
/// Its one segment has the section `__text`, whose bytes are not in the file, and the debug sections of the unit that
/// are not empty. `__debug_info` has the relocations of the specification, and `__debug_line` one for the address of each
/// sequence, which counts from `__text`. Offsets and sizes have 32 bits; in a file that is longer they keep the lowest.
pub fn object<R: Threads + Sync>(
    rt: &R,
    alloc: Global,
    spec: &ObjectSpec,
) -> Result<Bytes, NoMemory>
    requires unit { long_unit (graph_of spec.now.unit) ≡ None }
    requires sections { long_section (graph_of spec.now.unit) ≡ None }
    requires symbols { All (λ r. r.symbol < 2 ^ 24) spec.now.relocs }
    ensures { IfOk result (λ bytes. bytes ≡ object_bytes spec.now) }
{
    let layout = layout_of(rt, alloc, &spec.unit)?;
    let sized = sized_sections(alloc, &layout)?;
    let contents = contents_of(rt, alloc, &layout, sized.as_slice())?;
    let lines = section_size(&layout, Content::Lines);
    let moved = line_relocs(alloc, &spec.unit, lines)?;
    object_of(
        alloc,
        spec,
        sized.as_slice(),
        contents.as_slice(),
        moved.as_slice(),
    )
}

/// The file of an object with these debug sections and these relocations of the line table.
fn object_of(
    alloc: Global,
    spec: &ObjectSpec,
    sized: &[(Part, u64)],
    contents: &[u8],
    moved: &[Reloc],
) -> Result<Bytes, NoMemory>
    requires few { length sized.now < 2 ^ 32 }
    requires sized { sized.now ≡ sized_of (sections_of spec.now) }
    requires contents { contents.now ≡ Bundle.contents (sections_of spec.now) }
    requires moved { moved.now ≡ ObjectFile.line_relocs spec.now.unit }
    requires symbols { All (λ r. r.symbol < 2 ^ 24) spec.now.relocs }
    ensures { IfOk result (λ bytes. bytes ≡ object_bytes spec.now) }
{
    let places = places_of(spec, sized.len(), contents.len(), moved.len());
    let symbols = symbols_of(alloc, &spec.symbols)?;
    let mut out = Bytes::new(alloc);
    append_header(&mut out, spec.cpu, 0, MH_OBJECT, 2, places.commands)?;
    append_object_segment(alloc, &mut out, places, sized)?;
    append_symtab(&mut out, places.symoff, places.nsyms, places.strsize)?;
    out.extend(contents)?;
    append_relocs(&mut out, spec.relocs.as_slice())?;
    append_relocs(&mut out, moved)?;
    out.extend(symbols.as_slice())?;
    Ok(out)
}
