//! Names joined and bid for by several threads, and the winner of each path.
//!
//! Layer: names. [`joined_names`] makes the book of a link of the names of each of its objects, and beside it a table of
//! `type_pool` that is open for its names (`gathering`, `opening`). [`bid_objects`] is what one worker does over that table
//! and a counter of `work_share`: it claims one object after the other, bids for each of its names at the cell of its path,
//! and notes the cell; several names are looked at together before (`ahead`, `specs/Ahead.antt`). [`shared_winners`] does that by several workers (`sharing`), closes the table, and joins what was
//! noted to the cells of all names (`joining`). Several workers then put the names that bid the least in the places of
//! their cells (`least`), and read from these the winner of each name, where crowded names are bid for by themselves
//! (`winners`); each fills a part of a row (`filling`). What is bid stands in `specs/Bids.antt`, what is noted in
//! `specs/Noting.antt`, and what the closed table says in `specs/Tables.antt`. The answer is that of `odr_names`'
//! `winners_plain`, whatever the number of workers.
#![tactic(auto)]

mod ahead;
mod bidding;
mod filling;
mod gathering;
mod joining;
mod least;
mod opening;
mod sharing;
mod winners;

pub use bidding::{BID, ObjectCells, bid_objects};
pub use gathering::joined_names;
pub use opening::{OpenTable, open_table};
pub use winners::shared_winners;
