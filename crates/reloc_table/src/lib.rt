//! The debug sections of an image, and what an address in one means: its relocations, and the symbols that they name.
//!
//! Layer: addresses. [`check_sections`] tries the debug sections of an image, and [`sections_in`] gives the bytes of each
//! part of the file (`specs/Parts.antt`). Reads plain relocations of 8 bytes (mach-o/reloc.h). [`relocs`] gives `relocs_of` a section
//! (`specs/Table.antt`), or the first fault in its relocations; a law says of which kinds it is. [`resolve`] is
//! `address_of` a number that stands in the section (`specs/Address.antt`). Where an address went in the linked
//! program is not said here: `addr_map` moves it.
#![tactic(auto)]

mod address;
mod law;
mod relocation;
mod sections;
mod table;

pub use address::resolve;
pub use law::kinds_of_reloc_faults;
pub use relocation::{Reloc, Relocs};
pub use sections::{Compressed, check_sections, part_bytes, section_of, sections_in};
pub use table::{is_part, relocs};
