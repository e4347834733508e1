//! The shared table of names: many threads place names and bid for them, and the least bid of each name wins.
//!
//! Layer: sharing. A table has cells, each with two words: the name in it, and the least number that was bid there. A
//! thread steps on it with a seat. [`Pool::place`] finds the cell of a name or puts the name into an empty one,
//! [`Pool::bid`] lowers the least word, and nobody waits. [`Pool::split`] and [`Pool::join`] hand seats to threads and
//! take them back; whoever has every share again may [`Pool::close`] the table, and [`find`] then reads it.
//!
//! Each atomic step is a step of the plain machine of `pool_core`, or changes no word. What holds between any two steps
//! stands in `specs/Keeping.antt`, what a step tells its seat in `specs/Told.antt`. A filled cell never changes, so what
//! a seat once found in a cell stays true: the contracts speak of the seat's notes, which exist in proofs alone.
#![tactic(auto)]

mod closed;
mod make;
mod placing;
mod probing;
mod rule;
mod seat;
mod table;
mod view;

pub use closed::{ClosedPool, Found, equal_names_share_a_cell, find};
pub use make::pool;
pub use placing::Placing;
pub use seat::PoolSeat;
pub use table::Pool;
pub use view::View;
