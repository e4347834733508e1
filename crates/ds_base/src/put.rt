//! Numbers, bytes and LEB numbers written into a room.
//!
//! Each call writes the item's bytes from `at` on, an index from 0, and leaves every other byte.
//! Numbers are written with the lowest byte first.

ghost use Rattle.std.specs.Prelude.{◌≡◌, ◌+◌, ◌<◌, ◌≤◌, ◌^◌, ◌∷◌, [], length, false};
ghost use Rattle.byteorder.specs.Endian.{little_bytes};
ghost use Rattle.ds_base.specs.Leb.{leb_digits, sleb, sleb_len_of, uleb, uleb_len_of};
ghost use Rattle.ds_base.specs.Room.{put};

use crate::leb::{digit_of, sleb_len, uleb_len};
use byteorder::{ByteOrder, LittleEndian};

/// Writes bytes.
pub fn put_bytes(room: &mut [u8], at: usize, bytes: &[u8])
    requires fits { at + length bytes.now ≤ length room.old }
    ensures { room.new ≡ put room.old at bytes.now }
{
    room[at..at + bytes.len()].copy_from_slice(bytes);
}

/// Writes a byte.
pub fn put_u8(room: &mut [u8], at: usize, n: u8)
    requires fits { at + 1 ≤ length room.old }
    ensures { room.new ≡ put room.old at (n ∷ []) }
{
    room[at] = n;
}

/// Writes a number of two bytes.
pub fn put_u16(room: &mut [u8], at: usize, n: u16)
    requires fits { at + 2 ≤ length room.old }
    ensures { room.new ≡ put room.old at (little_bytes 2 n) }
{
    let mut bytes = [0; 2];
    LittleEndian::write_u16(&mut bytes, n);
    put_bytes(room, at, &bytes);
}

/// Writes a number of four bytes.
pub fn put_u32(room: &mut [u8], at: usize, n: u32)
    requires fits { at + 4 ≤ length room.old }
    ensures { room.new ≡ put room.old at (little_bytes 4 n) }
{
    let mut bytes = [0; 4];
    LittleEndian::write_u32(&mut bytes, n);
    put_bytes(room, at, &bytes);
}

/// Writes a number of eight bytes.
pub fn put_u64(room: &mut [u8], at: usize, n: u64)
    requires fits { at + 8 ≤ length room.old }
    ensures { room.new ≡ put room.old at (little_bytes 8 n) }
{
    let mut bytes = [0; 8];
    LittleEndian::write_u64(&mut bytes, n);
    put_bytes(room, at, &bytes);
}

/// Writes the `len` lowest digits of a number, or their complements, as one LEB number.
fn put_digits(room: &mut [u8], at: usize, len: usize, n: u64, flip: bool)
    requires some { 0 < len }
    requires fits { at + len ≤ length room.old }
    ensures { room.new ≡ put room.old at (leb_digits flip len n) }
{
    let mut left = n;
    for i in 0..len - 1 {
        room[at + i] = digit_of(left, flip) as u8 + 128;
        left /= 128;
    }
    room[at + len - 1] = digit_of(left, flip) as u8;
}

/// Writes the shortest LEB number without a sign (DWARF 4, section 7.6). [`uleb_len`] is its length.
#[tactic(auto, unfolding(crate::specs::Leb::uleb))]
pub fn put_uleb(room: &mut [u8], at: usize, n: u64)
    requires fits { at + uleb_len_of n ≤ length room.old }
    ensures { room.new ≡ put room.old at (uleb n) }
{
    put_digits(room, at, uleb_len(n) as usize, n, false);
}

/// Writes a LEB number without a sign in exactly four bytes, padded where fewer would do.
pub fn put_uleb4(room: &mut [u8], at: usize, n: u32)
    requires small { n < 2 ^ 28 }
    requires fits { at + 4 ≤ length room.old }
    ensures { room.new ≡ put room.old at (leb_digits false 4 n) }
{
    put_digits(room, at, 4, u64::from(n), false);
}

/// Writes the shortest LEB number with a sign (DWARF 4, section 7.6). [`sleb_len`] is its length.
#[tactic(auto, unfolding(crate::specs::Leb::sleb))]
pub fn put_sleb(room: &mut [u8], at: usize, n: i64)
    requires fits { at + sleb_len_of n ≤ length room.old }
    ensures { room.new ≡ put room.old at (sleb n) }
{
    let len = sleb_len(n) as usize;
    if n < 0 {
        put_digits(room, at, len, (-1 - n) as u64, true);
    } else {
        put_digits(room, at, len, n as u64, false);
    }
}
