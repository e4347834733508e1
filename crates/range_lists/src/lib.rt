//! Range lists: `__debug_ranges` and `__debug_rnglists` of an object, one list at a time.
//!
//! Layer: object readers. Reads lists of versions 4 and 5 (DWARF 4 and 5, section 2.17.3). [`read_ranges`] is the crate's
//! one call. It gives `ranges_of` the sections (`specs/Reading.antt`), or the first fault in the order of the list's
//! items. The items are those of `list_items`; no byte of a list that is read is left out ([`items_fill_a_range_list`]),
//! and faults are of the kinds that [`kinds_of_range_faults`] names. Spans keep the object's addresses:
//! `moved_parts` moves them by the map of `addr_map`.
#![tactic(auto)]

mod laws;
mod ranges;

pub use laws::{items_fill_a_range_list, kinds_of_range_faults};
pub use ranges::read_ranges;
