//! Work shared by threads: a counter that gives each number once, and a job that is done for each item of a phase.
//!
//! Layer: sharing. [`Tasks`] is a counter in one atomic word, from which each thread draws by a [`TaskSeat`] of its own.
//! A seat is split for a further thread and joined again where that one ends. Every step keeps `Rule`
//! (`specs/Counter.antt`), so what holds of any seat at any time is `IsFair` (`specs/Fair.antt`): no number is drawn
//! twice, and a seat with all shares that has come to its end drew all of them. [`each`] runs a [`Job`] for the items of a
//! phase by such a counter, and gives the results in the order of the items (`specs/Results.antt`). Who has finished a
//! small item goes on with the next one, whatever the others do. [`each_in_order`] does the same by an order in which items
//! are begun, which is a hint.
//!
//! Which thread draws which number, and when, is not said.
//!
//! [`Workers`] says how many threads may work, and [`Work`] which gate they pass beside that: what a link is done with is
//! handed down as one of these. Memory is taken and given back beside other work by [`start_room`] and [`let_go`].
#![tactic(auto)]

mod beside;
mod context;
mod counter;
mod done;
mod job;
mod opening;
mod order;
mod ordered;
mod steps;
mod view;
mod workers;

pub use beside::{Rooming, let_go, start_room, started_room};
pub use context::{Work, Workers};
pub use counter::{TaskSeat, Tasks};
pub use job::Job;
pub use opening::tasks;
pub use ordered::each_in_order;
pub use view::TaskView;
pub use workers::each;
