//! The two files of a bundle: the dSYM image and Info.plist.
//!
//! Layer: writers. [`image_in`] measures the parts of the image, takes a room for it once, behind the bytes that stand
//! there before a place, and fills it from there on: header, commands, symbols, strings, and the sections of the graph
//! in a page of their own (mach-o/loader.h, mach-o/nlist.h). What it writes is `image_file` of the program and the graph
//! (`specs/Bundle.antt`); a file of 2^32 bytes or more is refused. [`plist_text`] is the text of Info.plist
//! (`specs/Plist.antt`).
#![tactic(auto)]

mod commands;
mod dwarf;
mod error;
mod image;
mod page;
mod places;
mod plist;

pub use dwarf::append_part;
pub use error::WriteError;
pub use image::image_in;
pub use plist::plist_text;
