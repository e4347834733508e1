//! Line programs: `__debug_line` of an object, as sequences of rows.
//!
//! Layer: object readers. Reads tables of versions 2 to 5 (DWARF 4 and DWARF 5, section 6.2) in the 32-bit format; one of
//! version 5 stands in a unit of version 5 alone. [`read_lines`] gives `lines_of` the sections' bytes
//! (`specs/Program.antt`), or the first fault in the order of the table's items. The definition goes in the standard's
//! order: the header's fields (`specs/Header.antt`), directories and files (`specs/Tables.antt`) as versions 2 to 4 have
//! them (`specs/Names.antt`) or by the entry formats of version 5 (`specs/Formats.antt`, `specs/Entries.antt`), one
//! operation from its bytes (`specs/Operation.antt`), what an operation does to the registers (`specs/Registers.antt`),
//! and the matrix of rows that the list of operations gives, cut into sequences (`specs/Program.antt`). Addresses stay the
//! object's: `moved_parts` moves them, by an address map. [`table_version`] tells a table's own version alone, and
//! [`lines_as`] gives an older table in the form of a unit of version 5 (`specs/Counting.antt`). No byte of a program is
//! left out ([`operations_fill_the_program`]), and no name before version 5 ([`names_end_with_the_empty_one`]). Faults are
//! of the kinds that [`kinds_of_line_faults`] and [`kinds_of_version_faults`] name.
#![tactic(auto)]

mod codes;
mod counting;
mod entries;
mod formats;
mod header;
mod laws;
mod names;
mod operation;
mod program;
mod registers;
mod table;

pub use counting::lines_as;
pub use laws::{
    kinds_of_line_faults, kinds_of_version_faults, names_end_with_the_empty_one,
    operations_fill_the_program,
};
pub use table::{read_lines, table_version};
