//! Frame descriptions: `__debug_frame`.
//!
//! Layer: writers. [`append_frames`] puts `frames_bytes` (`dwarf_types/specs/Frames.antt`) behind what was written: a
//! common information entry (CIE) once, before the first frame description entry (FDE) that names it, looked up by its
//! content.
#![tactic(auto)]

mod call_frames;
mod known_cies;

pub use call_frames::append_frames;
