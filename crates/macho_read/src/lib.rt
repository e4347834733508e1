//! Mach-O images: the header, the segments, the sections and the symbols of a file's bytes.
//!
//! Layer: files. Reads 64-bit little-endian files for x86_64 and arm64 (mach-o/loader.h, mach-o/nlist.h).
//! [`read_image`] gives `image_of` the bytes (`specs/Image.antt`), or the first fault in the order header,
//! commands, symbols. [`check_kind`] tests that an image can be the program, one of its objects or a bundle's image,
//! [`section_bytes`] cuts the bytes of a debug section, and [`standing_of`] says what a symbol stands for
//! (`specs/Standings.antt`). Laws say that what is spelled by its records is read back, and of which kinds the
//! faults of each call are. Nothing here looks into the debug sections, and other load commands are passed over by
//! their size.
#![tactic(auto)]

mod commands;
mod debug;
mod ends;
mod fields;
mod header;
mod image;
mod kind;
mod law;
mod records;
mod standing;
mod symbol_list;
mod symbols;

pub use debug::{debug_part, is_debug, section_bytes};
pub use image::{Image, Section, Segment, Symbol, read_image};
pub use kind::{Role, check_kind, split_sections};
pub use law::{
    commands_read_back, images_read_back, kinds_of_image_faults, kinds_of_role_faults,
    kinds_of_section_faults, records_read_back, segments_have_all_sections,
};
pub use standing::{Standing, is_defined, is_stab, standing_of};
pub use symbol_list::{SymbolRef, Symbols};
