//! Numbers and bytes written into a room, one behind the other.
//!
//! Each call writes the item's bytes from `at` on, an index from 0, leaves every other byte, and answers the place
//! behind the item. A writer of several items joins what is added.

ghost use Rattle.std.specs.Prelude.{◌≡◌, ◌+◌, ◌≤◌, ◌∷◌, [], length};
ghost use Rattle.byteorder.specs.Endian.{little_bytes};
ghost use Rattle.ds_base.specs.Room.{Adds, put};

use crate::put::{put_bytes, put_u8, put_u16, put_u32, put_u64};

/// Writes bytes.
pub fn emit_bytes(room: &mut [u8], at: usize, bytes: &[u8]) -> usize
    requires fits { at + length bytes.now ≤ length room.old }
    ensures put { room.new ≡ put room.old at bytes.now }
    ensures adds { Adds room.old at bytes.now room.new result }
{
    put_bytes(room, at, bytes);
    at + bytes.len()
}

/// Writes a byte.
pub fn emit_u8(room: &mut [u8], at: usize, n: u8) -> usize
    requires fits { at + 1 ≤ length room.old }
    ensures put { room.new ≡ put room.old at (n ∷ []) }
    ensures adds { Adds room.old at (n ∷ []) room.new result }
{
    put_u8(room, at, n);
    at + 1
}

/// Writes a number of two bytes.
pub fn emit_u16(room: &mut [u8], at: usize, n: u16) -> usize
    requires fits { at + 2 ≤ length room.old }
    ensures put { room.new ≡ put room.old at (little_bytes 2 n) }
    ensures adds { Adds room.old at (little_bytes 2 n) room.new result }
{
    put_u16(room, at, n);
    at + 2
}

/// Writes a number of four bytes.
pub fn emit_u32(room: &mut [u8], at: usize, n: u32) -> usize
    requires fits { at + 4 ≤ length room.old }
    ensures put { room.new ≡ put room.old at (little_bytes 4 n) }
    ensures adds { Adds room.old at (little_bytes 4 n) room.new result }
{
    put_u32(room, at, n);
    at + 4
}

/// Writes a number of eight bytes.
pub fn emit_u64(room: &mut [u8], at: usize, n: u64) -> usize
    requires fits { at + 8 ≤ length room.old }
    ensures put { room.new ≡ put room.old at (little_bytes 8 n) }
    ensures adds { Adds room.old at (little_bytes 8 n) room.new result }
{
    put_u64(room, at, n);
    at + 8
}
