//! Line tables.

ghost use Rattle.std.specs.Prelude.{◌≡◌, ◌+◌, ◌<◌, ◌≤◌, ◌^◌, length, slice_get, Ok, Some};
ghost use Rattle.ds_base.specs.Room.{Adds};
ghost use Rattle.dwarf_types.specs.declared.graph.Graph.{Graph};
ghost use Rattle.dwarf_types.specs.declared.graph.OutUnit.{OutUnit};
ghost use Rattle.dwarf_types.specs.Encode.{line_section};
ghost use Rattle.layout.specs.Laid.{IsMeasured, Measures};
ghost use Rattle.layout.specs.Pass.{line_len};
ghost use Rattle.section_write.specs.Tables.{table_in};
ghost use Rattle.unit_draft.specs.declared.unit.Draft.{Draft as ADraft};

use layout::{Layout, drafts, outside_of};
use unit_draft::emit_lines;

/// Writes the line tables of all units, one behind the other from `start` on, and answers the place behind them.
pub(crate) fn emit_tables(layout: &Layout, room: &mut [u8], start: usize) -> usize
    requires measured { IsMeasured layout.now }
    requires fits { (graph : Graph) → Measures graph (Ok layout.now) → start + length (line_section graph) ≤ length room.old }
    ensures { (graph : Graph) → Measures graph (Ok layout.now) → Adds room.old start (line_section graph) room.new result }
{
    let mut at = start;
    for (u, draft) in drafts(layout).iter().enumerate() {
        at = add_table(layout, u as u32, draft.lines.len(), room, at);
    }
    at
}

/// Writes the line table of a unit, which has this size, from `at` on, and answers the place behind it.
fn add_table(layout: &Layout, unit: u32, size: usize, room: &mut [u8], at: usize) -> usize
    requires measured { IsMeasured layout.now }
    requires within { unit < length layout.now.drafts }
    requires size { (draft : ADraft) → slice_get layout.now.drafts unit ≡ Some draft → size ≡ line_len draft }
    requires fits { at + size ≤ length room.old }
    ensures { (graph : Graph) (it : OutUnit) → Measures graph (Ok layout.now) → slice_get graph.units unit ≡ Some it → Adds room.old at (table_in graph it) room.new result }
{
    let end = at + size;
    emit_table(layout, unit, &mut room[at..end]);
    end
}

/// Writes the line table of a unit into a room of its size. Units are counted from 0.
fn emit_table(layout: &Layout, unit: u32, room: &mut [u8])
    requires measured { IsMeasured layout.now }
    requires within { unit < length layout.now.drafts }
    requires size { (draft : ADraft) → slice_get layout.now.drafts unit ≡ Some draft → length room.old ≡ line_len draft }
    ensures { (graph : Graph) (it : OutUnit) → Measures graph (Ok layout.now) → slice_get graph.units unit ≡ Some it → room.new ≡ table_in graph it }
{
    let outside = outside_of(layout, unit);
    emit_lines(&drafts(layout)[unit as usize], &outside, room);
}
