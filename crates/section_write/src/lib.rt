//! The sections of a measured graph, one behind the other in the order of the output.
//!
//! Layer: writers. [`emit_sections`] fills a room with the bytes of all sections that `encode` gives the graph
//! (`dwarf_types/specs/Encode.antt`), by threads, and [`fill_section`] one with those of a section; both go over the table
//! of sections of the layout. Each byte is copied once, from the draft of its unit or from what the layout keeps, and what
//! stands outside of a unit is filled in where its entries and its line table then stand. Lists of version 5 stand behind
//! the header of their section. [`emit_unit`] writes the entries of one unit by themselves (DWARF 4 and 5, section 7.5),
//! so that units can be written apart from each other. None takes memory.
#![tactic(auto)]

mod lines;
mod lists;
mod parts;
mod sections;
mod shared;
mod unit;
mod units;

pub use sections::fill_section;
pub use shared::emit_sections;
pub use unit::emit_unit;
