//! Where the things stand that a unit names.

ghost use Rattle.std.specs.Prelude.{◌≡◌, slice_get, slice_index_or};
ghost use Rattle.std.specs.Option.{option_map_or};
ghost use Rattle.unit_draft.specs.Outside.{entry_number};

use crate::unit::Draft;
use dwarf_types::Target;
use patches::{Outer, OuterNumbers, place_or};

/// What stands outside of a unit, each place counted from the start of its section.
#[derive(Clone, Copy)]
pub struct Outside<'a> {
    /// The unit's abbreviations.
    pub table: u32,
    /// The unit's line table.
    pub lines: u32,
    /// The unit's first range list.
    pub ranges: u32,
    /// The unit's first location list.
    pub locations: u32,
    /// Each text of the unit, by its number among them.
    pub texts: &'a [u32],
    /// Each text of its line table, by its number among them.
    pub line_texts: &'a [u32],
    /// The header of each unit, in the order of the section.
    pub starts: &'a [u32],
    /// The drafts of all units, in that order.
    pub drafts: &'a [Draft],
    /// The end of `__debug_info`.
    pub end: u32,
}

impl<'a> OuterNumbers for Outside<'a> {
    ghost use Rattle.unit_draft.specs.Outside.{outer_number};

    ghost number = { outer_number };

    fn number_of(&self, hole: Outer) -> u128 {
        match hole {
            Outer::Table => u128::from(self.table),
            Outer::Text(i) => u128::from(place_or(self.texts, i, 0)),
            Outer::Entry(target) => entry_in(self, target),
            Outer::Ranges(offset) => u128::from(self.ranges) + offset as u128,
            Outer::Locations(offset) => u128::from(self.locations) + offset as u128,
            Outer::Lines => u128::from(self.lines),
            Outer::LineText(i) => u128::from(place_or(self.line_texts, i, 0)),
        }
    }
}

/// The place of an entry: that of its unit's header, and behind the last unit the section's end, with its place in the
/// unit.
fn entry_in(outside: &Outside, target: Target) -> u128
    ensures { result ≡ entry_number outside.now target }
{
    let unit = target.unit as usize;
    let start = place_or(outside.starts, unit, outside.end);
    u128::from(start) + u128::from(place_in(outside.drafts, unit, target.node))
}

/// The place of a node in its unit: behind the last node it is the unit's end.
fn place_in(drafts: &[Draft], unit: usize, node: u32) -> u32
    ensures { result ≡ option_map_or (λ draft. slice_index_or draft.places node draft.len) (slice_get drafts.now unit) 0 }
{
    match drafts.get(unit) {
        Some(draft) => place_or(draft.places.as_slice(), node as usize, draft.len),
        None => 0,
    }
}
