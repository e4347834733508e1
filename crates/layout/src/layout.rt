//! The layout of a graph, and what writers ask of it.

ghost use Rattle.std.specs.Prelude.{◌≡◌, ◌-◌, ◌^◌, ◌<◌, ◌≤◌, IfOk, fold, length, Some, None, Ok, slice_get};
ghost use Rattle.dwarf_types.specs.declared.graph.Graph.{Graph as Program};
ghost use Rattle.dwarf_types.specs.declared.graph.OutUnit.{OutUnit as Clone};
ghost use Rattle.layout.specs.Laid.{Measures};
ghost use Rattle.layout.specs.Laid.{common_in, sizes_in};
ghost use Rattle.layout.specs.Lengths.{size_in};
ghost use Rattle.layout.specs.declared.text.TextsOf.TheVariants as owners;
ghost use Rattle.layout.specs.Pass.{AreBelow, AreWide, MakesTexts, TellsTexts, behind_draft, first_long, is_long, no_starts, sized, texts_for, texts_len};
ghost use Rattle.unit_draft.specs.declared.unit.Draft.{Draft as ADraft};
ghost use Rattle.unit_draft.specs.Drafted.{AreDrafts};
ghost use Rattle.unit_draft.specs.Outside.{IsOutside};

use crate::drafting::draft_units;
use crate::error::LayoutError;
use crate::placing::{PartPlaces, place_all};
use crate::sizes::{Sizes, first_limit, size_of};
use crate::starts::{Starts, ends_of};
use crate::table::{Common, Content};
use crate::text::{Texts, TextsOf, texts_in};
use ds_base::limits::SECTION_BYTES;
use ds_base::{Bytes, List, NoMemory};
use dwarf_types::{Graph, OutFrames};
use frame_write::append_frames;
use std::alloc::Global;
use std::marker::Model;
use std::thread::Threads;
use text_pool::TextError;
use unit_draft::{Draft, Outside};

/// The layout of a graph, with the drafts of its units.
///
/// A contract sees where everything stands and ends, what is made of all units together, and the drafts.
#[derive(Drop)]
pub struct Layout {
    starts: List<u32>,
    parts: List<PartPlaces>,
    texts: Texts,
    line_texts: Texts,
    aranges: Bytes,
    frames: Bytes,
    ends: Starts,
    drafts: List<Draft>,
}

impl Model for Layout {
    ghost use Rattle.std.specs.Prelude.{◌≡◌, ◌<◌, ◌^◌, length};
    ghost use Rattle.layout.specs.Laid.{Laid};
    ghost use Rattle.layout.specs.Pass.{AreBelow};

    ghost Value = { Laid };

    ghost view = { λ a. record { starts = a.starts; parts = a.parts; texts = a.texts.section; text_places = a.texts.places; line_texts = a.line_texts.section; line_text_places = a.line_texts.places; aranges = a.aranges; frames = a.frames; ends = a.ends; drafts = a.drafts } };

    ghost invariant = { λ a. AreBelow (2 ^ 32) a.ends × (length a.parts ≡ length a.drafts) × (length a.texts.places ≡ length a.drafts) × (length a.line_texts.places ≡ length a.drafts) };
}

/// Measures a graph: drafts its units, and gives the drafts their places, by at most `workers` threads.
///
/// A unit that is too long is told before a section that is, and the string section before the others. The time is
/// linear in the graph.
pub fn measure<R: Threads + Sync>(
    rt: &R,
    alloc: Global,
    workers: u32,
    graph: &Graph,
) -> Result<Layout, LayoutError>
    requires workers { 1 ≤ workers }
    requires few { length graph.now.units < 2 ^ 32 - 1 }
    ensures { Measures graph.now result }
{
    let drafts = draft_units(rt, alloc, workers, graph)?;
    place_drafts(rt, alloc, Vec::new(alloc), workers, drafts, &graph.frames)
}

/// The layout of a graph by the drafts of its units, in their order, and by its frames. At most `workers` threads look the
/// texts up. The string section takes the place of `room`, whatever that holds.
///
/// The string section is told before others that are too long. The time is linear in the drafts.
pub fn place_drafts<R: Threads + Sync>(
    rt: &R,
    alloc: Global,
    room: Vec<u8>,
    workers: u32,
    drafts: List<Draft>,
    frames: &OutFrames,
) -> Result<Layout, LayoutError>
    requires workers { 1 ≤ workers }
    requires few { length drafts < 2 ^ 32 - 1 }
    ensures { (graph : Program) → AreDrafts graph drafts → graph.frames ≡ frames.now → Measures graph result }
{
    let texts = texts_in(
        rt,
        alloc,
        room,
        workers,
        drafts.as_slice(),
        TextsOf::Entries,
    );
    let none = Vec::new(alloc);
    let line_texts = texts_in(rt, alloc, none, workers, drafts.as_slice(), TextsOf::Lines);
    place_with(alloc, drafts, frames, texts, line_texts)
}

/// The layout by drafts whose texts are these, unless they are too long.
fn place_with(
    alloc: Global,
    drafts: List<Draft>,
    frames: &OutFrames,
    texts: Result<Texts, TextError>,
    line_texts: Result<Texts, TextError>,
) -> Result<Layout, LayoutError>
    requires few { length drafts < 2 ^ 32 - 1 }
    requires texts { MakesTexts owners.Entries drafts texts }
    requires line_texts { MakesTexts owners.Lines drafts line_texts }
    ensures { (graph : Program) → AreDrafts graph drafts → graph.frames ≡ frames.now → Measures graph result }
{
    let texts = short_texts(texts)?;
    let line_texts = short_texts(line_texts)?;
    let sizes = Sizes {
        ends: ends_of(drafts.as_slice()),
        texts: size_of_texts(&texts),
        line_texts: size_of_texts(&line_texts),
        aranges: 0,
        frames: 0,
    };
    if let Some(part) = first_limit(&sizes) {
        return Err(LayoutError::Section { part });
    }
    let Some(texts) = texts else { unreachable!() };
    let Some(line_texts) = line_texts else {
        unreachable!()
    };
    place_behind(alloc, drafts, frames, texts, line_texts, sizes)
}

/// Texts that were joined; none where their section would be too long.
fn short_texts(texts: Result<Texts, TextError>) -> Result<Option<Texts>, NoMemory>
    ensures { IfOk result (TellsTexts texts) }
{
    match texts {
        Ok(texts) => Ok(Some(texts)),
        Err(TextError::Long) => Ok(None),
        Err(TextError::NoMemory) => Err(NoMemory),
    }
}

/// The size of the section of texts, or the limit where it would be too long.
fn size_of_texts(texts: &Option<Texts>) -> u64
    ensures { result ≡ texts_len texts.now }
{
    match texts {
        Some(texts) => texts.section.len() as u64,
        None => SECTION_BYTES,
    }
}

/// The layout by drafts whose texts are these, no section of what was measured being too long: all but those of addresses and
/// of frames, which are not made yet.
fn place_behind(
    alloc: Global,
    drafts: List<Draft>,
    frames: &OutFrames,
    texts: Texts,
    line_texts: Texts,
    sizes: Sizes,
) -> Result<Layout, LayoutError>
    requires texts { texts ≡ texts_for owners.Entries drafts }
    requires line_texts { line_texts ≡ texts_for owners.Lines drafts }
    requires sizes { sizes ≡ sized (fold behind_draft no_starts drafts) (length texts.section) (length line_texts.section) 0 0 }
    requires room { AreBelow (2 ^ 127) sizes.ends }
    requires short { first_long (λ content. is_long (size_in sizes content)) ≡ None }
    ensures { (graph : Program) → AreDrafts graph drafts → graph.frames ≡ frames.now → Measures graph result }
{
    let placing = place_all(alloc, drafts.as_slice())?;
    let mut described = Bytes::new(alloc);
    append_frames(alloc, &mut described, frames)?;
    let all = Sizes {
        ends: sizes.ends,
        texts: sizes.texts,
        line_texts: sizes.line_texts,
        aranges: placing.aranges.len() as u64,
        frames: described.len() as u64,
    };
    if let Some(part) = first_limit(&all) {
        return Err(LayoutError::Section { part });
    }
    Ok(Layout {
        starts: placing.starts,
        parts: placing.parts,
        texts,
        line_texts,
        aranges: placing.aranges,
        frames: described,
        ends: placing.at,
        drafts,
    })
}

/// What stands outside of a unit, as its draft asks for it.
pub fn outside_of(layout: &Layout, unit: u32) -> Outside<'_>
    requires { unit < length layout.now.drafts }
    ensures { (graph : Program) (it : Clone) (draft : ADraft) → Measures graph (Ok layout.now) → slice_get graph.units unit ≡ Some it → slice_get layout.now.drafts unit ≡ Some draft → IsOutside graph unit it draft.names draft.line_names result }
{
    let parts = layout.parts.as_slice()[unit as usize];
    Outside {
        table: parts.table,
        lines: parts.lines,
        ranges: parts.ranges,
        locations: parts.locations,
        texts: layout.texts.places.as_slice()[unit as usize].as_slice(),
        line_texts: layout.line_texts.places.as_slice()[unit as usize].as_slice(),
        starts: layout.starts.as_slice(),
        drafts: layout.drafts.as_slice(),
        end: layout.ends.info as u32,
    }
}

/// The drafts of the units, in their order.
pub fn drafts(layout: &Layout) -> &[Draft]
    ensures { result.now ≡ layout.now.drafts }
{
    layout.drafts.as_slice()
}

/// The bytes of what is made of all units together.
pub fn common(layout: &Layout, common: Common) -> &[u8]
    ensures { result.now ≡ common_in layout.now common }
{
    match common {
        Common::Texts => layout.texts.section.as_slice(),
        Common::LineTexts => layout.line_texts.section.as_slice(),
        Common::Aranges => layout.aranges.as_slice(),
        Common::Frames => layout.frames.as_slice(),
    }
}

/// The size of a section in bytes.
pub fn section_size(layout: &Layout, content: Content) -> u64
    ensures { result ≡ size_in (sizes_in layout.now) content }
{
    size_of(&sizes_of(layout), content) as u64
}

/// The sizes of what the sections are made of.
fn sizes_of(layout: &Layout) -> Sizes
    ensures is { result ≡ sizes_in layout.now }
    ensures wide { AreWide result }
    ensures small { AreBelow (2 ^ 32) result.ends }
{
    Sizes {
        ends: layout.ends,
        texts: layout.texts.section.len() as u64,
        line_texts: layout.line_texts.section.len() as u64,
        aranges: layout.aranges.len() as u64,
        frames: layout.frames.len() as u64,
    }
}
