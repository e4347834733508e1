//! The shared pool of names as a plain machine: cells that names are put into, and a least word for each cell.
//!
//! Layer: sharing. A [`Step`] puts a name into a cell, where that is empty, or lowers a cell's least word to the minimum
//! of itself and a number; a run is a list of them (`specs/Machine.antt`). No code runs this machine: what a thread may do
//! to the running table is a step of it, and the table, once it is closed, is a run. Whatever the steps, a filled cell
//! keeps its name, an empty one gets the first name that is brought to it, and a least word becomes the minimum of itself
//! and all numbers that are brought to it ([`runs_fill_and_lower`]), so the order of the numbers does not matter
//! ([`order_does_not_matter`]).
//!
//! A [`NameBook`] says which names are equal, and at which cell the search for a name begins.
#![tactic(auto)]

mod book;
mod machine;
mod state;

pub use book::NameBook;
pub use machine::{order_does_not_matter, runs_fill_and_lower};
pub use state::{PoolState, Step};
