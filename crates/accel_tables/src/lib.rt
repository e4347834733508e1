//! Apple's accelerator tables: which entries stand under which names, so that a debugger finds them without reading all.
//!
//! Layer: writers. A table tells of each name the entries that have it, by a hash of the name (LLVM's "Source Level
//! Debugging with LLVM", "Name Accelerator Tables"). [`collect`] gives the names that a graph enters in a table, with their
//! entries (`specs/EnteredNames.antt`), [`table_bytes`] the table of names and places (`specs/Table.antt`), and [`look_up`]
//! what is `found` under a name in the bytes of a table, whoever wrote them (`specs/Found.antt`).
#![tactic(auto)]

mod attributes;
mod calling;
mod collecting;
mod finding;
mod hash;
mod header;
mod law;
mod rows;
mod table;
mod which;

pub use collecting::collect;
pub use finding::look_up;
pub use hash::name_hash;
pub use law::kinds_of_table_faults;
pub use rows::{Entered, Row, TableError};
pub use table::table_bytes;
pub use which::Which;
