//! Where the addresses of an object went in the linked program.
//!
//! Layer: addresses. [`build`] makes the map of an object from its part of the debug map and its symbols: `map_of`
//! them (`specs/Ranges.antt`, over what each entry gives, `specs/Entries.antt`). [`moved`], [`moved_end`] and
//! [`pieces`] say where an address, the end of a span, and a span went (`specs/Moved.antt`). What an address of the
//! object means is `reloc_table`'s; nothing of the debug sections is read here.
#![tactic(auto)]

mod entry;
mod map;
mod moving;
mod places;
mod ranges;
mod symbols;

pub use map::{AddrMap, MapName, MapRange};
pub use moving::{moved, moved_end, pieces};
pub use ranges::build;
