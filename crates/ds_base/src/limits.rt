//! The first sizes and counts that are too many (docs/PROFILE.md, "Limits").

/// Bytes of an output unit: an expression names a base type of its unit in four LEB digits.
pub const UNIT_BYTES: u64 = 1 << 28;

/// Bytes of an output section, and output units: places and numbers have four bytes, and all ones is none of them.
pub const SECTION_BYTES: u64 = (1 << 32) - 1;

/// Bytes of an image.
pub const IMAGE_BYTES: u64 = 1 << 32;

/// Objects of a debug map.
pub const OBJECTS: u64 = 1 << 16;

/// Bytes that all files have together, of which so many may be read.
pub const INPUT_BYTES: u64 = 1 << 29;

/// Entries of a link that have a name by which they are merged.
pub const POOLED_ENTRIES: usize = 1 << 25;
