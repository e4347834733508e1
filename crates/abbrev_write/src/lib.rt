//! The abbreviation table of an output unit: `__debug_abbrev`.
//!
//! Layer: writers. A table has one declaration for all entries of one tag, with or without children, and with the same
//! attributes in the same forms (DWARF 4, section 7.5.3). [`Declared`] takes the nodes of a unit one by one: it keeps the
//! declarations by first use, each once, and tells the code of each node, from 1, which later nodes don't change. Which
//! nodes have children is told ahead, by [`parents_in`]. [`append_table`] puts `declarations_bytes` of the declarations
//! last (`dwarf_types/specs/Abbreviations.antt`). Each unit has a table of its own.
#![tactic(auto)]

mod append;
mod declarations;
mod declare;
mod key;
mod parents;

pub use append::append_table;
pub use declarations::Declared;
pub use parents::parents_in;
