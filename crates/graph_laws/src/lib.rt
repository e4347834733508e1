//! What sections, and the image that has them, tell of a graph.
//!
//! Layer: laws. A definition by the standard's spellings (`specs/Telling.antt`) says what sections tell of a graph: its
//! units and nodes by their entries, each value by what stands at the place that it names, and its frames. The sections of
//! a well graph tell it ([`sections_tell_their_graph`]), and so does the image that is written of it and a program
//! ([`images_tell_their_graph`]), of each that was read from a file ([`bundles_tell_their_graph`]). The limits of readers
//! are a premise. Nothing here runs.
#![tactic(auto)]

mod laws;

pub use laws::{bundles_tell_their_graph, images_tell_their_graph, sections_tell_their_graph};
