//! Bytes, lists, faults, the cursor, numbers into a room, and the standards' numbers.
//!
//! Layer: ground. Every other crate stands on this one. A reader takes its items from a [`Cursor`],
//! whose contracts cite `specs/Reading.antt`: an item is a function from where the cursor stands to
//! the value and the place behind it, or to the first fault. A writer puts its items into a room by
//! the `put_` calls, or one behind the other by the `emit_` calls; both cite `specs/Room.antt`. LEB numbers are defined by their value
//! in `specs/Leb.antt`. Nothing here knows of Mach-O or DWARF but their numbers.
#![tactic(auto)]

mod bit_row;
mod bytes;
mod cursor;
pub mod dwarf;
mod emit;
mod fault;
mod leb;
pub mod limits;
mod list;
pub mod macho;
mod numbers;
mod pieces;
mod put;
mod text_key;
mod texts;

pub use bit_row::BitRow;
pub use bytes::Bytes;
pub use cursor::Cursor;
pub use emit::{emit_bytes, emit_u8, emit_u16, emit_u32, emit_u64};
pub use fault::{Fault, Kind, NoMemory, Part, ReadError};
pub use leb::{
    sleb_is_shortest, sleb_len, sleb_reads_back, uleb_is_shortest, uleb_len, uleb_reads_back,
    uleb4_reads_back,
};
pub use list::List;
pub use numbers::{dwarf_constants_are_the_standards, mach_o_constants_are_the_standards};
pub use pieces::{bytes_from, cut, text_in};
pub use put::{put_bytes, put_sleb, put_u8, put_u16, put_u32, put_u64, put_uleb, put_uleb4};
pub use text_key::TextKey;
pub use texts::texts_are_found_at_their_places;
