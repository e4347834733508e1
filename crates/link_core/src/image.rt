//! The image of a program, from the drafts of its units.

ghost use Rattle.std.specs.Prelude.{◌≡◌, ◌<◌, ◌≤◌, ◌-◌, ◌^◌, Bool, List as Listed, length, take, Ok};
ghost use Rattle.dwarf_types.specs.declared.analysis.Analysis.{Analysis as Seen};
ghost use Rattle.dwarf_types.specs.declared.graph.Graph.{Graph as AGraph};
ghost use Rattle.layout.specs.Laid.{IsMeasured, Measures};
ghost use Rattle.link_core.specs.Passes.{AreOfGraph, Images, IsDrafted, Lays, Links};
ghost use Rattle.unit_draft.specs.Drafted.{AreDrafts};

use crate::bundle::{Counts, Drafted, Linked};
use crate::program::Program;
use ds_base::limits::{IMAGE_BYTES, SECTION_BYTES};
use ds_base::{Bytes, List};
use dsym_write::{WriteError, image_in};
use dwarf_types::OutFrames;
use layout::{Layout, LayoutError, place_drafts};
use link_status::{LimitKind, Refusal};
use std::thread::Threads;
use unit_draft::Draft;
use unit_drafts::{count_nodes, size_of_their_texts};
use work_share::{Rooming, Workers, let_go, start_room, started_room};

/// Bytes of a symbol of a program in its image, about: a third is kept, each with its name.
const SYMBOL_BYTES: usize = 32;

/// A file with the image of a program and of the graph that is drafted behind what stands in it, or the first limit that is
/// reached. The string section takes the memory that a thread took.
pub(crate) fn file_of<R: Threads + Sync>(
    workers: &Workers<R>,
    program: &Program,
    drafted: Drafted,
    front: Bytes,
) -> Result<Linked, Refusal>
    requires drafted { (odr : Bool) × (seen : Listed Seen) × (marks : Listed (Listed Bool)) × IsDrafted odr seen marks drafted }
    ensures { (odr : Bool) (seen : Listed Seen) (marks : Listed (Listed Bool)) → IsDrafted odr seen marks drafted → Links odr program.now.image.now front seen marks result }
{
    let Drafted {
        drafts,
        texts,
        frames,
        counted,
        closed,
    } = drafted;
    let nodes = count_nodes(drafts.as_slice());
    let start = front.len();
    let file = image_of(workers, program, drafts, texts, &frames, front)?;
    let counts = Counts {
        objects: counted.objects,
        entries: counted.entries,
        live: counted.live,
        pooled: counted.pooled,
        names: counted.names,
        nodes,
        bytes: (file.len() - start) as u64,
    };
    Ok(Linked {
        file,
        counts,
        closed,
    })
}

/// The image of a program and of the graph of these drafts and frames behind what stands before it, or the first limit that
/// is reached. Where several threads work, one of them takes memory for the image while the others place the drafts, and one
/// lets these go.
fn image_of<R: Threads + Sync>(
    workers: &Workers<R>,
    program: &Program,
    drafts: List<Draft>,
    texts: Rooming,
    frames: &OutFrames,
    front: Bytes,
) -> Result<Bytes, Refusal>
    requires few { length drafts < 2 ^ 32 - 1 }
    requires drafted { AreOfGraph drafts frames.now }
    ensures { (graph : AGraph) → AreDrafts graph drafts → graph.frames ≡ frames.now → Images front program.now.image.now graph result }
{
    let start = front.len();
    let texts = started_room(workers, texts);
    let size = size_of_image(program, drafts.as_slice(), texts.len());
    let rooming = start_room(workers, room_beside(start, size));
    let placed = layout_of(workers, texts, drafts, frames);
    let room = room_behind(front, started_room(workers, rooming));
    let layout = placed?;
    let image = write_image(workers, room, start, program, &layout)?;
    let_go(workers, layout);
    Ok(image)
}

/// So many bytes of the image's are taken ahead, where nothing stands before it. Else its room grows where it is.
fn room_beside(start: usize, size: usize) -> usize {
    if start == 0 { size } else { 0 }
}

/// The room for the image behind what stands before it: where that is nothing, the one that was taken ahead.
fn room_behind(front: Bytes, ahead: Vec<u8>) -> Vec<u8>
    ensures start { length front ≤ length result.items }
    ensures front { take (length front) result.items ≡ front }
{
    if front.is_empty() {
        ahead
    } else {
        front.into_vec()
    }
}

/// About the bytes of the image of a program and these drafts. `texts` is about the size of its string section, or 0 where that
/// was not guessed.
fn size_of_image(program: &Program, drafts: &[Draft], texts: usize) -> usize {
    let mut size = program.image.symbols.len().saturating_mul(SYMBOL_BYTES);
    for draft in drafts {
        size = size.saturating_add(size_of(draft));
    }
    let texts = if texts == 0 {
        size_of_their_texts(drafts)
    } else {
        texts
    };
    size.saturating_add(texts)
}

/// The bytes of a draft but for its texts.
fn size_of(draft: &Draft) -> usize {
    draft
        .info
        .len()
        .saturating_add(draft.locations.len())
        .saturating_add(draft.ranges.len())
        .saturating_add(draft.lines.len())
        .saturating_add(draft.table.len())
}

/// The layout of the graph of these drafts and frames, or the first limit that it reaches. No unit is too long, since each
/// has a draft. The texts take the place of a room.
fn layout_of<R: Threads + Sync>(
    workers: &Workers<R>,
    room: Vec<u8>,
    drafts: List<Draft>,
    frames: &OutFrames,
) -> Result<Layout, Refusal>
    requires few { length drafts < 2 ^ 32 - 1 }
    requires drafted { AreOfGraph drafts frames.now }
    ensures { (graph : AGraph) → AreDrafts graph drafts → graph.frames ≡ frames.now → Lays graph result }
{
    match place_drafts(
        workers.rt,
        workers.alloc,
        room,
        workers.count,
        drafts,
        frames,
    ) {
        Ok(layout) => Ok(layout),
        Err(LayoutError::Unit { .. }) => unreachable!(),
        Err(LayoutError::Section { .. }) => Err(Refusal::Limit {
            which: LimitKind::Section,
            number: SECTION_BYTES,
        }),
        Err(LayoutError::NoMemory) => Err(Refusal::NoMemory),
    }
}

/// The image of a program and of a layout, behind what a room holds before a place.
fn write_image<R: Threads + Sync>(
    workers: &Workers<R>,
    room: Vec<u8>,
    start: usize,
    program: &Program,
    layout: &Layout,
) -> Result<Bytes, Refusal>
    requires start { start ≤ length room.items }
    requires measured { IsMeasured layout.now }
    ensures { (graph : AGraph) → Measures graph (Ok layout.now) → Images (take start room.items) program.now.image.now graph result }
{
    match image_in(
        workers.rt,
        room,
        start,
        workers.count,
        program.image,
        layout,
    ) {
        Ok(image) => Ok(image),
        Err(WriteError::File { .. }) => Err(Refusal::Limit {
            which: LimitKind::File,
            number: IMAGE_BYTES,
        }),
        Err(WriteError::NoMemory) => Err(Refusal::NoMemory),
    }
}
