//! Units of the output, each drafted from its clone alone.
//!
//! Layer: writers. A [`Draft`] has a unit's part of each section, in the form of the unit's version: the entries in
//! `__debug_info` and the line table, with holes where something outside of the unit is named, and range lists,
//! location lists and abbreviations, which are final. [`draft_unit`] asks a source for the nodes, each once and in
//! order, so that no unit stands in memory as a whole; it needs no other unit, and no size is computed ahead. It goes
//! stretch by stretch (`turns`): some nodes are asked for and declared (`preparer`), and then their entries are
//! appended (`entries`). Two workers do both at the same time (`task`), for two stretches behind each other. What a
//! draft is stands in `specs/Drafted.antt`. Once it is known where all stands ([`Outside`]), [`emit_draft`]
//! copies the entries and fills the holes, so that they are `unit_bytes` (`dwarf_types/specs/Entries.antt`), and
//! [`emit_lines`] does so with the line table, so that it is `lines_bytes` (`dwarf_types/specs/LineTable.antt`).
#![tactic(auto)]

mod depths;
mod drafting;
mod entries;
mod error;
mod expression;
mod lists;
mod numbers;
mod outside;
mod parts;
mod preparer;
mod stretch;
mod task;
mod turns;
mod unit;
mod values;
mod whole;

pub use error::DraftError;
pub use outside::Outside;
pub use unit::{Draft, draft_unit, emit_draft, emit_lines};
