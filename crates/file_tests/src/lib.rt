//! What the readers of files answer: an archive, an object and a program, and what they say or their first fault.
//!
//! Layer: addresses. The files are laid out by hand, and expected values are other tools' or were written out by hand from
//! the standards. The answers stand in `proofs/`, as equations over the definitions that the readers' contracts cite, which
//! hold by computing; the tests run the readers over the same files.
#![tactic(auto)]

pub mod archive;
pub mod object;
pub mod program;
#[cfg(test)]
mod runs;
#[cfg(test)]
mod universal_runs;
