//! What the ground answers: lists, bytes, marks, items and numbers, and files that are read ahead.
//!
//! Layer: ground. Expected values were written out by hand from the standards. How LEB numbers are spelled and what they
//! mean is worked in `proofs/WorkedNumbers.antt`, and how items are read and written in `proofs/WorkedItems.antt`, over the
//! definitions that the contracts of `ds_base` cite. There is nothing here but tests, so `ds_base` is proved without them.
#![tactic(auto)]

#[cfg(test)]
mod files;
#[cfg(test)]
mod ground;
#[cfg(test)]
mod parts;
