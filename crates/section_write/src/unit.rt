//! One unit (DWARF 4 and 5, section 7.5.1.1).

ghost use Rattle.std.specs.Prelude.{◌≡◌, ◌+◌, ◌<◌, ◌≤◌, length, slice_get, Ok, Some};
ghost use Rattle.ds_base.specs.Room.{Adds};
ghost use Rattle.dwarf_types.specs.declared.graph.Graph.{Graph};
ghost use Rattle.dwarf_types.specs.declared.graph.OutUnit.{OutUnit};
ghost use Rattle.section_write.specs.Emitting.{bytes_in};
ghost use Rattle.layout.specs.Laid.{IsMeasured, Measures};
ghost use Rattle.unit_draft.specs.declared.unit.Draft.{Draft as ADraft};

use layout::{Layout, drafts, outside_of};
use unit_draft::emit_draft;

/// Writes a unit of this size from `at` on, and answers the place behind it.
pub(crate) fn add_unit(layout: &Layout, unit: u32, size: usize, room: &mut [u8], at: usize) -> usize
    requires measured { IsMeasured layout.now }
    requires within { unit < length layout.now.drafts }
    requires size { (draft : ADraft) → slice_get layout.now.drafts unit ≡ Some draft → size ≡ draft.len }
    requires fits { at + size ≤ length room.old }
    ensures { (graph : Graph) (it : OutUnit) → Measures graph (Ok layout.now) → slice_get graph.units unit ≡ Some it → Adds room.old at (bytes_in graph unit it) room.new result }
{
    let end = at + size;
    emit_unit(layout, unit, &mut room[at..end]);
    end
}

/// Writes a unit into a room of its size. Units are counted from 0.
pub fn emit_unit(layout: &Layout, unit: u32, room: &mut [u8])
    requires measured { IsMeasured layout.now }
    requires within { unit < length layout.now.drafts }
    requires size { (draft : ADraft) → slice_get layout.now.drafts unit ≡ Some draft → length room.old ≡ draft.len }
    ensures { (graph : Graph) (it : OutUnit) → Measures graph (Ok layout.now) → slice_get graph.units unit ≡ Some it → room.new ≡ bytes_in graph unit it }
{
    let outside = outside_of(layout, unit);
    emit_draft(&drafts(layout)[unit as usize], &outside, room);
}
