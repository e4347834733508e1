//! Line tables: what is written is read.
//!
//! Layer: laws. A table in the bytes that `line_write` gives it (`line_table_bytes` of
//! `dwarf_types/specs/LineTable.antt`) is read by `line_read` as it was: its directories, its files, and its rows in
//! their sequences (`specs/Again.antt`). [`line_tables_are_read_as_written`] states it of tables of version 4, and
//! [`line_tables_of_version_5_are_read_as_written`] of those of version 5, whose names stand in a section of their own.
//! Nothing here runs.
#![tactic(auto)]

mod laws;

pub use laws::{line_tables_are_read_as_written, line_tables_of_version_5_are_read_as_written};
