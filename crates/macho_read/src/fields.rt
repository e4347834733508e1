//! Fields of records: numbers, names and texts, cut from the bytes at a place.

ghost use Rattle.std.specs.Prelude.{◌≡◌, ◌+◌, ◌≤◌, length, IfOk};
ghost use Rattle.macho_read.specs.Fields.{number_of, name_of, text_len, before_zero};

use byteorder::{ByteOrder, LittleEndian};
use ds_base::{Bytes, NoMemory, cut};
use std::alloc::Global;

/// The two bytes at a place as a number.
#[tactic(auto, unfolding(crate::specs::Fields::number_of))]
pub(crate) fn u16_at(bytes: &[u8], at: usize) -> u16
    requires { at + 2 ≤ length bytes.now }
    ensures { result ≡ number_of 2 at bytes.now }
{
    LittleEndian::read_u16(&bytes[at..])
}

/// The four bytes at a place as a number.
#[tactic(auto, unfolding(crate::specs::Fields::number_of))]
pub(crate) fn u32_at(bytes: &[u8], at: usize) -> u32
    requires { at + 4 ≤ length bytes.now }
    ensures { result ≡ number_of 4 at bytes.now }
{
    LittleEndian::read_u32(&bytes[at..])
}

/// The eight bytes at a place as a number.
#[tactic(auto, unfolding(crate::specs::Fields::number_of))]
pub(crate) fn u64_at(bytes: &[u8], at: usize) -> u64
    requires { at + 8 ≤ length bytes.now }
    ensures { result ≡ number_of 8 at bytes.now }
{
    LittleEndian::read_u64(&bytes[at..])
}

/// How many bytes stand before the first zero byte, all of them where there is none.
pub(crate) fn count_text(bytes: &[u8]) -> usize
    ensures is { result ≡ text_len bytes.now }
    ensures within { result ≤ length bytes.now }
{
    for (i, b) in bytes.iter().enumerate() {
        if *b == 0 {
            return i;
        }
    }
    bytes.len()
}

/// The bytes before the first zero byte, all of them where there is none.
pub(crate) fn unpadded(bytes: &[u8]) -> &[u8]
    ensures { result.now ≡ before_zero bytes.now }
{
    &bytes[..count_text(bytes)]
}

/// The name in the 16 bytes at a place.
#[tactic(auto, unfolding(crate::specs::Fields::name_of))]
pub(crate) fn name_at(bytes: &[u8], at: usize) -> &[u8]
    requires { at + 16 ≤ length bytes.now }
    ensures { result.now ≡ name_of at bytes.now }
{
    unpadded(cut(bytes, at, 16))
}

/// A copy of the name in the 16 bytes at a place.
pub(crate) fn read_name(alloc: Global, bytes: &[u8], at: usize) -> Result<Bytes, NoMemory>
    requires { at + 16 ≤ length bytes.now }
    ensures { IfOk result (λ name. name ≡ name_of at bytes.now) }
{
    Bytes::from_slice(alloc, name_at(bytes, at))
}

/// Whether a name is that of the 16 bytes, padded with zeros.
pub(crate) fn is_named(padded: &[u8; 16], name: &[u8]) -> bool
    ensures { result ≡ Rattle.macho_read.specs.Fields.is_named padded.now name.now }
{
    *name == *unpadded(padded)
}
