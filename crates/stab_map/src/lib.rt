//! The debug map: which objects a program was linked from, and where their functions and variables went.
//!
//! Layer: files. Reads the stabs in the symbol table of a linked program (mach-o/stab.h). [`debug_map`] gives
//! `map_of` the image (`specs/DebugMap.antt`): the objects with their entries, the first fault in the order of
//! the symbols, or that there are too many objects; a law says of which kinds the faults are. [`opened_file`] tells of a
//! symbol alone which file its object lies in, and a law says that these files are those of the map. Objects of maps can be
//! compared and copied. No object's file is looked at, and the times in the stabs aren't read.
#![tactic(auto)]

mod addresses;
mod law;
mod map;
mod object;
mod origin;
mod pass;
mod stab;

pub use law::{kinds_of_map_faults, opened_files_are_those_of_the_map};
pub use map::debug_map;
pub use object::{MapEntry, MapError, MapObject, copy_object, same_object};
pub use origin::opened_file;
