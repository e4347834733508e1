//! The section of frames, as the standard spells it, as it is written and as it is read.
//!
//! Layer: laws. What is read as the section of frames are entries that follow each other as the standard spells them, each
//! FDE with its CIE among them (`specs/Spelling.antt`), and what is spelled so is read ([`frames_are_read_as_spelled`]). The
//! written section is spelled so, and its frames are those that were written ([`frames_are_read_as_written`]). What is read
//! then is told in `specs/Again.antt`. No relocation stands in the section. Nothing here runs.
#![tactic(auto)]

mod laws;

pub use laws::{frames_are_read_as_spelled, frames_are_read_as_written};
