//! Padding behind a name.

ghost use Rattle.std.specs.Prelude.{◌≡◌};
ghost use Rattle.ar_read.specs.Padding;

/// The bytes without those at the end that are `pad`.
pub(crate) fn unpadded(bytes: &[u8], pad: u8) -> &[u8]
    ensures { result.now ≡ Rattle.ar_read.specs.Padding.unpadded pad bytes.now }
{
    let mut len = bytes.len();
    while len > 0 && bytes[len - 1] == pad {
        len -= 1;
    }
    &bytes[..len]
}
