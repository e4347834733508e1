//! Parts of sections that are copied as they are.

ghost use Rattle.std.specs.Prelude.{◌≡◌, ◌+◌, ◌≤◌, [], length};
ghost use Rattle.std.specs.List.{flat_map};
ghost use Rattle.ds_base.specs.Room.{Adds};
ghost use Rattle.layout.specs.Pass.{in_five, in_others};
ghost use Rattle.section_write.specs.Copied.{part_in};

use ds_base::dwarf::DWARF_5;
use ds_base::emit_bytes;
use layout::Piece;
use unit_draft::Draft;

/// Writes a part of each draft, one behind the other from `start` on, and answers the place behind them.
pub(crate) fn emit_parts(part: Piece, drafts: &[Draft], room: &mut [u8], start: usize) -> usize
    requires fits { start + length (flat_map (part_in part) drafts.now) ≤ length room.old }
    ensures { Adds room.old start (flat_map (part_in part) drafts.now) room.new result }
{
    let mut at = start;
    for draft in drafts {
        at = emit_bytes(room, at, part_of(part, draft));
    }
    at
}

/// A part of a draft.
fn part_of(part: Piece, draft: &Draft) -> &[u8]
    ensures { result.now ≡ part_in part draft.now }
{
    match part {
        Piece::Tables => draft.table.as_slice(),
        Piece::Ranges => other_lists(draft.version, draft.ranges.as_slice()),
        Piece::Rnglists => five_lists(draft.version, draft.ranges.as_slice()),
        Piece::Loc => other_lists(draft.version, draft.locations.as_slice()),
        Piece::Loclists => five_lists(draft.version, draft.locations.as_slice()),
    }
}

/// What of the lists of a version stands in a section of version 5.
fn five_lists(version: u16, lists: &[u8]) -> &[u8]
    ensures { result.now ≡ in_five version [] lists.now }
{
    if version == DWARF_5 { lists } else { &[] }
}

/// What of them stands in one of the other sections of lists.
fn other_lists(version: u16, lists: &[u8]) -> &[u8]
    ensures { result.now ≡ in_others version [] lists.now }
{
    if version == DWARF_5 { &[] } else { lists }
}
