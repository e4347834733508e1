//! What is found in a table that was written.
//!
//! Layer: laws. Under a name stand in the bytes of a table exactly the places of the entries that are entered under it, rising,
//! each once, and such a table is never refused: of rows ([`tables_find_their_rows`]), of names with places
//! ([`tables_find_what_is_entered`]), and of a graph ([`tables_find_the_names_of_graphs`]). What is entered, and what is to be
//! found of it, is said in `specs/Entries.antt`. Nothing here runs.
#![tactic(auto)]

mod laws;

pub use laws::{
    tables_find_the_names_of_graphs, tables_find_their_rows, tables_find_what_is_entered,
};
