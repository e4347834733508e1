//! Abbreviation tables: `__debug_abbrev` of an object, one table at a time.
//!
//! Layer: object readers. Reads tables of DWARF 4 (section 7.5.3) and DWARF 5 (section 7.5.3), which
//! differ by the form `DW_FORM_implicit_const` alone. [`read_table`] is the crate's one call. It
//! gives `table_at` of the section's bytes (`specs/Reading.antt`), or the first fault in the order
//! of the table's items. What an attribute's form means is not looked at: `form_value` does that,
//! value by value.
#![tactic(auto)]

mod codes;
mod laws;
mod table;

pub use laws::{kinds_of_table_faults, tables_are_read_as_spelled};
pub use table::read_table;
