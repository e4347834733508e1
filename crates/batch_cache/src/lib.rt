//! Analyses that are kept, for programs that share objects.
//!
//! Layer: top. A [`Cache`] answers what `object_view::analyse` answers, for the same bytes, part of a debug map and CPU type;
//! it keeps some of the analyses that it made, behind a lock, and answers a copy of one that it has. What the lock keeps is a
//! [`Shelf`], whose type says that each analysis on it is the one of its bytes, of its part of a debug map and for its CPU
//! type (`specs/Shelves.antt`). Which analyses are on it is not said: they are bounded in number and in bytes, and the
//! oldest go first. Whoever asks may wait for the lock.
#![tactic(auto)]

mod cache;
mod kept;
mod shelf;
#[cfg(test)]
mod tests;

pub use cache::Cache;
pub use kept::Kept;
pub use shelf::Shelf;
