//! The operands around a base type, as bytes.

ghost use Rattle.std.specs.Prelude.{◌≡◌, ◌≤◌, drop, length};
ghost use Rattle.dwarf_types.specs.LinkedExpressions.{before_base, behind_base, front_leb};

use dwarf_types::Operands;

/// The bytes behind an operation's code.
pub(crate) fn behind_code(bytes: &[u8]) -> &[u8]
    ensures { result.now ≡ drop 1 bytes.now }
{
    if bytes.is_empty() {
        return bytes;
    }
    &bytes[1..]
}

/// The operands before the base type that an operation names.
pub(crate) fn before_base(row: Option<Operands>, bytes: &[u8]) -> &[u8]
    ensures { result.now ≡ before_base row bytes.now }
{
    match row {
        Some(Operands::UlebBase) => front(bytes),
        Some(Operands::ByteBase) if !bytes.is_empty() => &bytes[..1],
        _ => &bytes[..0],
    }
}

/// The operands behind the base type that an operation names.
pub(crate) fn behind_base(row: Option<Operands>, bytes: &[u8]) -> &[u8]
    ensures { result.now ≡ behind_base row bytes.now }
{
    match row {
        Some(Operands::BaseBlock) => &bytes[front_len(bytes)..],
        _ => &bytes[..0],
    }
}

/// The LEB number at the front; all bytes, where it does not end.
fn front(bytes: &[u8]) -> &[u8]
    ensures { result.now ≡ front_leb bytes.now }
{
    &bytes[..front_len(bytes)]
}

/// How many bytes the LEB number at the front takes; all, where it does not end.
fn front_len(bytes: &[u8]) -> usize
    ensures len { result ≡ length (front_leb bytes.now) }
    ensures within { result ≤ length bytes.now }
{
    for (i, byte) in bytes.iter().enumerate() {
        if *byte < 128 {
            return i + 1;
        }
    }
    bytes.len()
}
