//! All sections, by several threads.

ghost use Rattle.std.specs.Prelude.{◌≡◌, ◌≤◌, Ok, length};
ghost use Rattle.std.specs.List.{flat_map};
ghost use Rattle.std.specs.Thread.{IsSync};
ghost use Rattle.dwarf_types.specs.declared.graph.Graph.{Graph};
ghost use Rattle.dwarf_types.specs.Encode.{encode};
ghost use Rattle.layout.specs.Laid.{IsMeasured, Measures, sizes_in};
ghost use Rattle.layout.specs.Lengths.{run_size};
ghost use Rattle.section_write.specs.Runs.{FillsRun, back_run, behind_run, front_run, texts_run};

use crate::sections::fill_in_turn;
use layout::{Common, Content, Layout, Piece, SECTIONS, Section, section_size};
use std::thread::{Threads, join_mut};

/// How many sections stand before the texts of entries: those that are written beside all others.
const BEFORE_TEXTS: usize = 2;

/// Writes the sections of a graph that was measured, one behind the other in the order of the output, into a room of their
/// size, by at most `workers` threads. Two of them, or one of less than four, write the texts of entries and the sections
/// behind these, and the others abbreviations and entries.
pub fn emit_sections<R: Threads + Sync>(rt: &R, workers: u32, layout: &Layout, room: &mut [u8])
    requires measured { IsMeasured layout.now }
    requires size { (graph : Graph) → Measures graph (Ok layout.now) → length room.old ≡ length (flat_map (λ s. s.bytes) (encode graph)) }
    ensures { (graph : Graph) → Measures graph (Ok layout.now) → room.new ≡ flat_map (λ s. s.bytes) (encode graph) }
{
    if workers < 2 {
        fill_in_turn(rt, workers, layout, &SECTIONS, room);
        return;
    }
    let tables = section_size(layout, Content::Pieces(Piece::Tables)) as usize;
    let units = section_size(layout, Content::Entries) as usize;
    let (front, back) = room.split_at_mut(tables + units);
    let behind = (workers / 2).min(2);
    fill_both(rt, workers - behind, behind, layout, front, back);
}

/// Writes abbreviations and entries by some threads, and beside them all other sections by others.
fn fill_both<R: Threads + Sync>(
    rt: &R,
    before: u32,
    behind: u32,
    layout: &Layout,
    front: &mut [u8],
    back: &mut [u8],
)
    requires measured { IsMeasured layout.now }
    requires front { length front.old ≡ run_size (sizes_in layout.now) front_run }
    requires back { length back.old ≡ run_size (sizes_in layout.now) back_run }
    ensures front { FillsRun layout.now front_run front.new }
    ensures back { FillsRun layout.now back_run back.new }
{
    let mut write_front = ||
        requires { IsSync R.row × IsMeasured layout.now × (length front.now ≡ run_size (sizes_in layout.now) front_run) }
        ensures { FillsRun layout.entry.now front_run front.exit.now }
    { fill_front(rt, before, layout, front) };
    let mut write_back = ||
        requires { IsSync R.row × IsMeasured layout.now × (length back.now ≡ run_size (sizes_in layout.now) back_run) }
        ensures { FillsRun layout.entry.now back_run back.exit.now }
    { fill_back(rt, behind, layout, back) };
    join_mut(rt, &mut write_front, &mut write_back);
}

/// Writes abbreviations and entries into a room of their size.
fn fill_front<R: Threads + Sync>(rt: &R, workers: u32, layout: &Layout, room: &mut [u8])
    requires measured { IsMeasured layout.now }
    requires size { length room.old ≡ run_size (sizes_in layout.now) front_run }
    ensures { FillsRun layout.now front_run room.new }
{
    let all: &[Section] = &SECTIONS;
    let (mine, _) = all.split_at(BEFORE_TEXTS);
    fill_in_turn(rt, workers, layout, mine, room);
}

/// Writes all sections but these into a room of their size, by one thread or by two.
fn fill_back<R: Threads + Sync>(rt: &R, workers: u32, layout: &Layout, room: &mut [u8])
    requires measured { IsMeasured layout.now }
    requires size { length room.old ≡ run_size (sizes_in layout.now) back_run }
    ensures { FillsRun layout.now back_run room.new }
{
    let texts = section_size(layout, Content::Common(Common::Texts)) as usize;
    let (front, back) = room.split_at_mut(texts);
    if workers < 2 {
        fill_texts(rt, layout, front);
        fill_behind(rt, layout, back);
        return;
    }
    fill_beside(rt, layout, front, back);
}

/// Writes the texts of entries, and beside them what stands behind.
fn fill_beside<R: Threads + Sync>(rt: &R, layout: &Layout, front: &mut [u8], back: &mut [u8])
    requires measured { IsMeasured layout.now }
    requires front { length front.old ≡ run_size (sizes_in layout.now) texts_run }
    requires back { length back.old ≡ run_size (sizes_in layout.now) behind_run }
    ensures front { FillsRun layout.now texts_run front.new }
    ensures back { FillsRun layout.now behind_run back.new }
{
    let mut write_texts = ||
        requires { IsSync R.row × IsMeasured layout.now × (length front.now ≡ run_size (sizes_in layout.now) texts_run) }
        ensures { FillsRun layout.entry.now texts_run front.exit.now }
    { fill_texts(rt, layout, front) };
    let mut write_behind = ||
        requires { IsSync R.row × IsMeasured layout.now × (length back.now ≡ run_size (sizes_in layout.now) behind_run) }
        ensures { FillsRun layout.entry.now behind_run back.exit.now }
    { fill_behind(rt, layout, back) };
    join_mut(rt, &mut write_texts, &mut write_behind);
}

/// Writes the texts of entries into a room of their size.
fn fill_texts<R: Threads + Sync>(rt: &R, layout: &Layout, room: &mut [u8])
    requires measured { IsMeasured layout.now }
    requires size { length room.old ≡ run_size (sizes_in layout.now) texts_run }
    ensures { FillsRun layout.now texts_run room.new }
{
    let all: &[Section] = &SECTIONS;
    let (_, back) = all.split_at(BEFORE_TEXTS);
    let (mine, _) = back.split_at(1);
    fill_in_turn(rt, 1, layout, mine, room);
}

/// Writes the sections behind the texts of entries into a room of their size.
fn fill_behind<R: Threads + Sync>(rt: &R, layout: &Layout, room: &mut [u8])
    requires measured { IsMeasured layout.now }
    requires size { length room.old ≡ run_size (sizes_in layout.now) behind_run }
    ensures { FillsRun layout.now behind_run room.new }
{
    let all: &[Section] = &SECTIONS;
    let (_, back) = all.split_at(BEFORE_TEXTS);
    let (_, mine) = back.split_at(1);
    fill_in_turn(rt, 1, layout, mine, room);
}
