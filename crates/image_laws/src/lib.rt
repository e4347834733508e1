//! The image file of a bundle, as the records of Mach-O files spell it and as it is read.
//!
//! Layer: laws. What is written for a program whose numbers fit their records (`specs/Fitting.antt`) is spelled by them
//! ([`image_files_are_spelled`]); so it is read as the image of a bundle, whose debug sections are those of the graph,
//! where its section table says ([`image_files_give_their_sections`]). Each program that was read from a file fits its records
//! ([`programs_that_were_read_fit`]). Nothing here runs.
#![tactic(auto)]

mod laws;

pub use laws::{
    image_files_are_spelled, image_files_give_their_sections, programs_that_were_read_fit,
};
