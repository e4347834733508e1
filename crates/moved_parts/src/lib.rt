//! What of an object's tables went to the linked program.
//!
//! Layer: object readers. The readers give line tables (DWARF 4, section 6.2), spans (2.17.3), frame descriptions
//! (6.4.1) and single addresses with the object's own addresses, and this crate moves them by the object's address
//! map: [`move_lines`] to `lines_moved` (`specs/Lines.antt`), [`move_spans`] and [`span_pieces`] to `spans_moved` and
//! `span_moved` (`specs/Spans.antt`), [`move_frames`] to `frames_moved` (`specs/Frames.antt`), and [`place`] to
//! `place_of` (`specs/Places.antt`). What no range of the map holds is left out. Nothing is read here, and nothing is
//! faulty; where a single address went is said by `addr_map`.
#![tactic(auto)]

mod frames;
mod lines;
mod places;
mod spans;

pub use frames::move_frames;
pub use lines::move_lines;
pub use places::place;
pub use spans::{move_spans, span_pieces};
