//! Tests of links of a generated program by two threads: that they share each phase, and that the table that they share
//! has a cell for each name.
//!
//! Layer: top. The crate has no code of its own.
#![tactic(auto)]

#[cfg(test)]
mod tests;
