//! The generated program as a value, and its numbers.

use ds_base::{Bytes, List};
use macho_read::Image;
use stab_map::MapObject;

/// Where its segment begins, and its size in bytes.
pub const SEGMENT_ADDRESS: u64 = 0x1_0000_0000;

pub const SEGMENT_SIZE: u64 = 0x100_0000;

/// Where the code of an object of number 0 would be linked, and how many bytes lie between one object and the next.
pub const CODE_START: u64 = 0x1_0000_1000;

pub const OBJECT_STRIDE: u64 = 2048;

pub const UUID: [u8; 16] = [0, 1, 2, 3, 4, 5, 6, 7, 8, 9, 10, 11, 12, 13, 14, 15];

/// A program, and what it was linked from.
#[derive(Drop)]
pub struct Generated {
    /// The linked program, whose symbols are the stabs of its debug map.
    pub program: Image,
    /// The debug map.
    pub objects: List<MapObject>,
    /// The file of each object of the map, in their order.
    pub files: List<Bytes>,
}
