//! Tests over the calls of the shared table and of shared work: rows that several seats make together, threads that share
//! one table, and jobs that they share.
//!
//! Layer: sharing. There is nothing here but tests, so `type_pool` and `work_share` are proved without them.
#![tactic(auto)]

#[cfg(test)]
mod keyed;
#[cfg(test)]
mod parts;
#[cfg(test)]
mod tests;
#[cfg(test)]
mod tests_tasks;
#[cfg(test)]
mod tests_threads;
