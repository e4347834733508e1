//! Lists of version 5, behind the header of their section (DWARF 5, sections 7.28 and 7.29).

ghost use Rattle.std.specs.Prelude.{◌≡◌, ◌+◌, ◌<◌, ◌≤◌, ◌^◌, length};
ghost use Rattle.std.specs.List.{flat_map};
ghost use Rattle.ds_base.specs.Room.{Adds};
ghost use Rattle.dwarf_types.specs.Lists.{behind_header, lists_header};
ghost use Rattle.section_write.specs.Copied.{part_in};

use crate::parts::emit_parts;
use ds_base::dwarf::{ADDRESS_SIZE, DWARF_5, OFFSET_SIZE};
use ds_base::{emit_u8, emit_u16, emit_u32};
use layout::{LISTS_HEADER_LEN, Piece};
use unit_draft::Draft;

/// The bytes of the header behind `unit_length`.
const BEHIND_LENGTH_LEN: u32 = LISTS_HEADER_LEN - OFFSET_SIZE as u32;

/// Writes the lists of drafts behind their header, where there are any. The section has so many bytes.
pub(crate) fn emit_lists(
    part: Piece,
    size: u64,
    drafts: &[Draft],
    room: &mut [u8],
    at: usize,
) -> usize
    requires size { size ≡ length (behind_header (flat_map (part_in part) drafts.now)) }
    requires small { size < 2 ^ 32 }
    requires fits { at + length (behind_header (flat_map (part_in part) drafts.now)) ≤ length room.old }
    ensures { Adds room.old at (behind_header (flat_map (part_in part) drafts.now)) room.new result }
{
    if size == 0 {
        return at;
    }
    let lists = size as u32 - LISTS_HEADER_LEN;
    let at = emit_header(lists, room, at);
    emit_parts(part, drafts, room, at)
}

/// Writes the header of lists that have so many bytes: `unit_length`, the version, `address_size`,
/// `segment_selector_size`, and `offset_entry_count`, since no list is named by an index.
fn emit_header(lists: u32, room: &mut [u8], at: usize) -> usize
    requires small { 8 + lists < 2 ^ 32 }
    requires fits { at + length (lists_header lists) ≤ length room.old }
    ensures { Adds room.old at (lists_header lists) room.new result }
{
    let at = emit_u32(room, at, BEHIND_LENGTH_LEN + lists);
    let at = emit_u16(room, at, DWARF_5);
    let at = emit_u8(room, at, ADDRESS_SIZE);
    let at = emit_u8(room, at, 0);
    emit_u32(room, at, 0)
}
