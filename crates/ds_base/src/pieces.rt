//! Pieces of bytes.

ghost use Rattle.std.specs.Prelude.{◌≡◌, ◌+◌, ◌≤◌, length, take, drop};
ghost use Rattle.std.specs.Option.{option_copied};
ghost use Rattle.ds_base.specs.Reading.{text_of};

use crate::cursor::Cursor;
use crate::fault::Part;

/// The bytes from a place on.
pub fn bytes_from(bytes: &[u8], at: usize) -> &[u8]
    requires { at ≤ length bytes.now }
    ensures is { result.now ≡ drop at bytes.now }
    ensures len { at + length result.now ≡ length bytes.now }
{
    &bytes[at..]
}

/// So many bytes from a place on.
pub fn cut(bytes: &[u8], at: usize, count: usize) -> &[u8]
    requires { at + count ≤ length bytes.now }
    ensures is { result.now ≡ take count (drop at bytes.now) }
    ensures len { length result.now ≡ count }
{
    &bytes_from(bytes, at)[..count]
}

/// The text that begins at a place of a section, without the zero byte behind it, if it ends there.
#[tactic(auto, unfolding(crate::specs::Reading::text_of, crate::specs::Reading::text_at))]
pub fn text_in(section: &[u8], place: u32) -> Option<&[u8]>
    ensures { option_copied result ≡ text_of section.now place }
{
    let place = u64::from(place);
    let end = section.len() as u64;
    if place >= end {
        return None;
    }
    let mut cursor = Cursor::new(section, Part::Str, place, end);
    cursor.text().ok()
}
