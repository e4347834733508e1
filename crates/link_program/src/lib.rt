//! A program and the files of its objects: how they are read, and how the program is linked by what is held of them.
//!
//! Layer: top. [`read_program`] reads the image and the debug map in a file's bytes (`specs/Refusals.antt`), and reads the
//! files of its objects ahead meanwhile; [`read_files`] asks for each of these files once, in the order of the objects, and
//! tells which one is missing, can't be read or is too long (`specs/Files.antt`); [`link_held`] links the program with its
//! objects by the files that are held (`specs/Making.antt`, over `link_core/specs/Linked.antt`), and [`link_files`] any program
//! with objects whose files have numbers. Words, modes and messages
//! are of the crates above.
#![tactic(auto)]

mod bundle;
mod files;
mod making;
mod program;
mod warnings;

pub use bundle::{Bundle, Wanted};
pub use files::{HeldFiles, Stopped, expect_files, read_files, unread};
pub use making::{link_files, link_held};
pub use program::{MappedProgram, read_program};
