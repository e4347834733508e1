//! Bytes with holes, which are filled in place later.
//!
//! Layer: writers. A unit of `__debug_info` names places that are not known while it is written: its own length, entries
//! behind the one at hand, and all that stands outside of it. Each such number has four bytes, whatever it is. A
//! [`Buffer`] leaves a hole there and keeps a patch, which says where the hole is and what belongs in it. Contracts say
//! what a buffer is once each hole has its number: `filled` (`specs/Filling.antt`), for every `Filling`. What the unit
//! itself tells ([`Own`]) is filled by `settle`, with the numbers of `specs/Numbers.antt`, and what stands outside of it
//! ([`Outer`]) by `patch` or `emit`, with those that an [`OuterNumbers`] gives.
#![tactic(auto)]

mod buffer;
mod fill;
mod hole;
mod numbers;

pub use buffer::Buffer;
pub use hole::{Outer, OuterPatch, Own, OwnPatch};
pub use numbers::{OuterNumbers, place_or};
