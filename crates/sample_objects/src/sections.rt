//! The debug sections of a unit: their sizes, and their bytes.

ghost use Rattle.std.specs.Prelude.{◌≡◌, ◌↔◌, ◌<◌, ◌≤◌, ◌^◌, true, None, Ok, map, IfOk, length};
ghost use Rattle.std.specs.List.{filter, sum_by};
ghost use Rattle.dsym_write.specs.Bundle.{contents};
ghost use Rattle.dwarf_types.specs.declared.graph.Graph.{Graph};
ghost use Rattle.layout.specs.Laid.{IsMeasured, Measures};
ghost use Rattle.layout.specs.Lengths.{long_section, long_unit};
ghost use Rattle.dsym_write.specs.Pieces.{with_size};
ghost use Rattle.sample_objects.specs.ObjectFile.{graph_of, sections_in, sized_of};
ghost use Rattle.sample_objects.specs.Sized.{has_size};
ghost use Rattle.unit_draft.specs.Drafted.{AreDrafts, IsDraft};

use ds_base::{Bytes, List, NoMemory, Part};
use dwarf_types::{OutFrames, OutUnit};
use layout::{Layout, LayoutError, SECTIONS, Section, place_drafts, section_size};
use section_write::emit_sections;
use std::alloc::Global;
use std::thread::Threads;
use unit_draft::{Draft, DraftError, draft_unit};

/// Whether a unit and its sections are short enough for a file.
///
/// The unit has less than 2^28 bytes, and each section less than 2^32 - 1.
pub fn is_within_limits<R: Threads + Sync>(
    rt: &R,
    alloc: Global,
    unit: &OutUnit,
) -> Result<bool, NoMemory>
    ensures { IfOk result (λ within. (within ≡ true) ↔ ((long_unit (graph_of unit.now) ≡ None) × (long_section (graph_of unit.now) ≡ None))) }
{
    match measure_unit(rt, alloc, unit) {
        Ok(_) => Ok(true),
        Err(LayoutError::NoMemory) => Err(NoMemory),
        Err(LayoutError::Unit { .. }) => Ok(false),
        Err(LayoutError::Section { .. }) => Ok(false),
    }
}

/// The layout of the graph of one unit, which is within the limits.
pub(crate) fn layout_of<R: Threads + Sync>(
    rt: &R,
    alloc: Global,
    unit: &OutUnit,
) -> Result<Layout, NoMemory>
    requires unit { long_unit (graph_of unit.now) ≡ None }
    requires sections { long_section (graph_of unit.now) ≡ None }
    ensures { IfOk result (λ layout. Measures (graph_of unit.now) (Ok layout)) }
{
    match measure_unit(rt, alloc, unit) {
        Ok(layout) => Ok(layout),
        Err(LayoutError::NoMemory) => Err(NoMemory),
        Err(LayoutError::Unit { .. }) => unreachable!(),
        Err(LayoutError::Section { .. }) => unreachable!(),
    }
}

/// The layout of the graph of one unit, or the limit that it reaches.
fn measure_unit<R: Threads + Sync>(
    rt: &R,
    alloc: Global,
    unit: &OutUnit,
) -> Result<Layout, LayoutError>
    ensures { Measures (graph_of unit.now) result }
{
    let draft = match draft_unit(rt, alloc, 1, unit, 0) {
        Ok(draft) => draft,
        Err(DraftError::NoMemory) => return Err(LayoutError::NoMemory),
        Err(DraftError::Unit) => return Err(LayoutError::Unit { unit: 0 }),
    };
    let drafts = drafts_of(alloc, unit, draft)?;
    let frames = OutFrames::new(alloc);
    place_drafts(rt, alloc, Vec::new(alloc), 1, drafts, &frames)
}

/// The list of the draft of the one unit.
fn drafts_of(alloc: Global, unit: &OutUnit, draft: Draft) -> Result<List<Draft>, NoMemory>
    requires { IsDraft 0 unit.now draft }
    ensures { IfOk result (AreDrafts (graph_of unit.now)) }
{
    let mut drafts = List::new(alloc);
    drafts.push(draft)?;
    Ok(drafts)
}

/// The sections that have bytes, each with its size.
#[tactic(auto, unfolding(crate::specs::ObjectFile::sections_in))]
pub(crate) fn sized_sections(alloc: Global, layout: &Layout) -> Result<List<(Part, u64)>, NoMemory>
    ensures sized { IfOk result (λ sized. (graph : Graph) → Measures graph (Ok layout.now) → sized ≡ sized_of (sections_in graph)) }
    ensures few { IfOk result (λ sized. length sized < 2 ^ 32) }
{
    let sized = with_bytes(alloc, layout, &SECTIONS)?;
    Ok(sized)
}

/// Those of some sections that have bytes, each with its size.
fn with_bytes(
    alloc: Global,
    layout: &Layout,
    sections: &[Section],
) -> Result<List<(Part, u64)>, NoMemory>
    ensures sized { IfOk result (λ sized. sized ≡ filter has_size (map (with_size layout.now) sections.now)) }
    ensures few { IfOk result (λ sized. length sized ≤ length sections.now) }
{
    let mut sized = List::new(alloc);
    for section in sections {
        let size = section_size(layout, section.content);
        if size != 0 {
            sized.push((section.part, size))?;
        }
    }
    Ok(sized)
}

/// The bytes of the sections, one behind the other.
#[tactic(auto, unfolding(crate::specs::ObjectFile::sections_in))]
pub(crate) fn contents_of<R: Threads + Sync>(
    rt: &R,
    alloc: Global,
    layout: &Layout,
    sized: &[(Part, u64)],
) -> Result<Bytes, NoMemory>
    requires measured { IsMeasured layout.now }
    requires sized { (graph : Graph) → Measures graph (Ok layout.now) → sized.now ≡ sized_of (sections_in graph) }
    ensures { IfOk result (λ bytes. (graph : Graph) → Measures graph (Ok layout.now) → bytes ≡ contents (sections_in graph)) }
{
    let size = total_size(sized);
    let mut bytes = Bytes::zeros(alloc, size as usize)?;
    emit_sections(rt, 1, layout, bytes.as_mut_slice());
    Ok(bytes)
}

/// The size of all sections.
fn total_size(sized: &[(Part, u64)]) -> u64
    requires { sum_by (λ s. s.1) sized.now < 2 ^ 64 }
    ensures { result ≡ sum_by (λ s. s.1) sized.now }
{
    let mut total = 0;
    for (_, size) in sized {
        total += *size;
    }
    total
}
