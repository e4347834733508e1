//! Location lists: `__debug_loc` and `__debug_loclists` of an object, one list at a time.
//!
//! Layer: object readers. Reads lists of versions 4 and 5 (DWARF 4 and 5, section 2.6.2). [`read_locations`] gives
//! `locations_of` the sections (`specs/Reading.antt`), or the first fault in the order of the list's items;
//! [`read_location_items`] tells default locations apart. The items are those of `list_items`, each span with an expression behind it; no byte of a list that is
//! read is left out ([`items_fill_a_location_list`]), and faults are of the kinds that [`kinds_of_location_faults`]
//! names. Spans keep the object's addresses: `moved_parts` moves them by the map of `addr_map`. Expressions are kept as
//! bytes: `expr_walk` reads their operations.
#![tactic(auto)]

mod laws;
mod locations;

pub use laws::{items_fill_a_location_list, kinds_of_location_faults};
pub use locations::{LocationItem, read_location_items, read_locations};
