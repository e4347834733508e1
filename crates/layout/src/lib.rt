//! The layout of a graph: where each of its parts stands in its section, and how long the sections are.
//!
//! Layer: writers. [`SECTIONS`] is the table of all sections: a line each, with its part and what it is made of. What is
//! measured, limited and written goes over that table. [`place_drafts`] takes the drafts of the units, joins their texts to
//! the string section and those of their line tables to `__debug_line_str`, sums their lengths, and answers `laid` of the
//! graph (`specs/Laid.antt`), or the first limit that is passed: a section of 2^32 - 1 bytes, whose places have four (DWARF
//! 4 and 5, section 7.4). Lists of version 5 stand in sections of their own, behind a header. [`measure`] drafts the units
//! first, and answers the first that has 2^28 bytes, whose entries expressions could not name in four. The [`Layout`] keeps
//! the drafts, and [`outside_of`] tells what stands outside of each, so every part can be written apart from the others.
#![tactic(auto)]

mod address_sets;
mod drafting;
mod error;
mod layout;
mod placing;
mod sizes;
mod starts;
mod table;
mod text;

pub use error::LayoutError;
pub use layout::{Layout, common, drafts, measure, outside_of, place_drafts, section_size};
pub use sizes::LISTS_HEADER_LEN;
pub use table::{Common, Content, Listed, Piece, SECTIONS, Section, piece_of};
