//! Items of range lists and location lists: what both have in common.
//!
//! Layer: object readers. Reads with what each item begins, up to an expression: in version 4 the two words of
//! `__debug_ranges` and `__debug_loc` (`specs/Words.antt`), in version 5 the entries of `__debug_rnglists` and
//! `__debug_loclists` (DWARF 5, sections 2.17.3 and 2.6.2; `specs/Entries.antt`). An item is `item_at` where a
//! cursor stands (`specs/Reading.antt`): the end of the list, a new base, a default, or a span with the
//! base applied (`specs/Ends.antt`). [`read_list`] gives the whole list, `list_in` its section (`specs/Lists.antt`): a listing of the
//! items, with what follows a span as its argument ([`Behind`]: nothing in a range list, an expression in a location
//! list), and what the items give. `range_lists` and `loc_lists` say what follows, and have the laws that no byte of a
//! list is left out (`specs/Whole.antt`). Nothing here is moved to the linked program.
#![tactic(auto)]

mod context;
mod ends;
mod entry;
mod item;
mod kinds;
mod list;
mod words;

pub use context::{ListContext, ListForm, ListSection};
pub use item::covered;
pub use list::{Behind, read_list};
