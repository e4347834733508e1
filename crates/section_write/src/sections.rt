//! Sections, each in a room of its size.

ghost use Rattle.std.specs.Prelude.{◌≡◌, ◌+◌, ◌≤◌, Ok, length};
ghost use Rattle.ds_base.specs.Room.{Adds};
ghost use Rattle.dwarf_types.specs.declared.graph.Graph.{Graph};
ghost use Rattle.dwarf_types.specs.Encode.{line_section};
ghost use Rattle.dwarf_types.specs.Lists.{behind_header};
ghost use Rattle.layout.specs.Laid.{IsMeasured, Measures, common_in, sizes_in};
ghost use Rattle.layout.specs.Lengths.{lists_size, piece_in, run_size, size_in, start_in};
ghost use Rattle.layout.specs.Sections.{common_bytes, content_bytes, pieces_bytes};
ghost use Rattle.section_write.specs.Runs.{FillsRun};

use crate::lines::emit_tables;
use crate::lists::emit_lists;
use crate::parts::emit_parts;
use crate::units::emit_units;
use ds_base::emit_bytes;
use layout::{
    Common, Content, Layout, Listed, Piece, Section, common, drafts, piece_of, section_size,
};
use std::thread::Threads;

/// Writes sections of a graph that was measured, one behind the other, into a room of their size. At most `workers` threads
/// write the entries.
pub(crate) fn fill_in_turn<R: Threads + Sync>(
    rt: &R,
    workers: u32,
    layout: &Layout,
    sections: &[Section],
    room: &mut [u8],
)
    requires measured { IsMeasured layout.now }
    requires size { length room.old ≡ run_size (sizes_in layout.now) sections.now }
    ensures { FillsRun layout.now sections.now room.new }
{
    let mut at = 0;
    for section in sections {
        at = add_section(rt, workers, layout, section, room, at);
    }
}

/// Writes a section from `at` on, and answers the place behind it.
fn add_section<R: Threads + Sync>(
    rt: &R,
    workers: u32,
    layout: &Layout,
    section: &Section,
    room: &mut [u8],
    at: usize,
) -> usize
    requires measured { IsMeasured layout.now }
    requires fits { at + size_in (sizes_in layout.now) section.now.content ≤ length room.old }
    ensures { (graph : Graph) → Measures graph (Ok layout.now) → Adds room.old at (content_bytes graph section.now.content) room.new result }
{
    let end = at + section_size(layout, section.content) as usize;
    fill_section(rt, workers, layout, section.content, &mut room[at..end]);
    end
}

/// Writes a section of a graph that was measured into a room of its size. At most `workers` threads write entries.
pub fn fill_section<R: Threads + Sync>(
    rt: &R,
    workers: u32,
    layout: &Layout,
    content: Content,
    room: &mut [u8],
)
    requires measured { IsMeasured layout.now }
    requires size { length room.old ≡ size_in (sizes_in layout.now) content }
    ensures { (graph : Graph) → Measures graph (Ok layout.now) → room.new ≡ content_bytes graph content }
{
    match content {
        Content::Entries => emit_units(rt, workers, layout, room),
        Content::Lines => fill_lines(layout, room),
        Content::Pieces(piece) => fill_pieces(layout, piece, room),
        Content::Lists(lists) => fill_lists(layout, lists, room),
        Content::Common(which) => fill_common(layout, which, room),
    }
}

/// Writes all line tables.
fn fill_lines(layout: &Layout, room: &mut [u8])
    requires measured { IsMeasured layout.now }
    requires size { length room.old ≡ layout.now.ends.line }
    ensures { (graph : Graph) → Measures graph (Ok layout.now) → room.new ≡ line_section graph }
{
    emit_tables(layout, room, 0);
}

/// Writes a piece of each unit.
fn fill_pieces(layout: &Layout, piece: Piece, room: &mut [u8])
    requires measured { IsMeasured layout.now }
    requires size { length room.old ≡ start_in layout.now.ends piece }
    ensures { (graph : Graph) → Measures graph (Ok layout.now) → room.new ≡ pieces_bytes graph piece }
{
    emit_parts(piece, drafts(layout), room, 0);
}

/// Writes lists behind the header of their section.
fn fill_lists(layout: &Layout, lists: Listed, room: &mut [u8])
    requires measured { IsMeasured layout.now }
    requires size { length room.old ≡ lists_size (start_in layout.now.ends (piece_in lists)) }
    ensures { (graph : Graph) → Measures graph (Ok layout.now) → room.new ≡ behind_header (pieces_bytes graph (piece_in lists)) }
{
    let size = section_size(layout, Content::Lists(lists));
    emit_lists(piece_of(lists), size, drafts(layout), room, 0);
}

/// Writes what is made of all units together.
fn fill_common(layout: &Layout, which: Common, room: &mut [u8])
    requires measured { IsMeasured layout.now }
    requires size { length room.old ≡ length (common_in layout.now which) }
    ensures { (graph : Graph) → Measures graph (Ok layout.now) → room.new ≡ common_bytes graph which }
{
    emit_bytes(room, 0, common(layout, which));
}
