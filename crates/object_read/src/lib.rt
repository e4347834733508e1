//! One object as its own bytes have it, whatever program it was linked to: its image, the relocations of its debug
//! sections, and its units.
//!
//! Layer: object readers. [`read_object`] gives `read_of` the bytes (`specs/Read.antt`): the object as it is opened
//! (`specs/Opened.antt`), of whose debug sections those count that `reloc_table` names, and its units, or its first
//! fault up to there. No address is moved here; `object_view` analyses what was read, by a part of a debug map. What is
//! read owns all but the bytes of the sections, which [`sections_of`] finds again in the file's.
#![tactic(auto)]

mod open;
mod read;

pub use open::DebugRelocs;
pub use read::{ReadObject, read_object, read_with_sections, sections_of};
