//! What the readers of expressions, frames, line tables and lists answer: bytes, and what they say or their first fault.
//!
//! Layer: object readers. Expected values are other tools' or were written out by hand from the standard. They stand in
//! `proofs/`, as equations over the definitions that the readers' contracts cite, which hold by computing; the tests run the
//! readers over some of the bytes.
#![tactic(auto)]

pub mod bytes;
#[cfg(test)]
mod parts;
#[cfg(test)]
mod runs;
