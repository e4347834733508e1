//! The records of Mach-O files, written.
//!
//! Layer: writers. What comes first in a file, its header and its load commands, is short, and is put behind bytes by
//! the `append_` calls, each of which puts one record, one command or those of all segments (mach-o/loader.h). Symbols
//! and their strings may be long, and are written into their place in a room by the `emit_` calls (mach-o/nlist.h).
//! Numbers wider than their fields keep the lowest bits. Records are spelled as `macho_read/specs/Spelling.antt` and
//! `ImageSpelling.antt` say; which record the numbers make is said in `specs/Records.antt`, and what stands in the
//! symbol table and in its strings in `specs/SymbolTable.antt`.
#![tactic(auto)]

mod commands;
mod fields;
mod records;
mod segments;
mod symbols;

pub use commands::{append_command, append_header, append_symtab, append_uuid, count_uuid};
pub use fields::append_words;
pub use records::{SectionNumbers, SegmentNumbers, append_section, append_segment};
pub use segments::append_segments;
pub use symbols::{emit_strings, emit_symbols, strings_size};
