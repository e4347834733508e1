//! Line tables of output units: `__debug_line`.
//!
//! Layer: writers. A table has a header with the directories and files, and a program whose operations append the rows
//! (DWARF 4, sections 6.2.4 and 6.2.5; DWARF 5, section 6.2.4). [`append_lines`] puts `line_table_bytes` of a table
//! (`dwarf_types/specs/LineTable.antt`) behind what was written, each row once; [`append_sequence`] puts what the program
//! of a table has of one sequence. A row that a special operation can append is appended by one. In version 4 the texts of
//! directories and files stand in the table; in version 5 it names them by their places in `__debug_line_str`, which are
//! holes until these places are known (`specs/Named.antt`).
#![tactic(auto)]

mod lines;
mod names;
mod row_ops;
mod sequences;
mod tables;

pub use lines::append_lines;
pub use sequences::append_sequence;
