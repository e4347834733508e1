//! Where an object lies: in a file of its own, or as a member of an archive.

ghost use Rattle.std.specs.Prelude.{◌≡◌, ◌-◌, ◌≤◌, not, length};
ghost use Rattle.std.specs.List.{suffix_len};
ghost use Rattle.std.specs.Option.{option_copied};
ghost use Rattle.macho_read.specs.Seen.{symbol_seen};
ghost use Rattle.stab_map.specs.Origin.{is_open, opened_file, origin_of, seen, text_in};

use crate::stab::{Stab, read_stab};
use macho_read::SymbolRef;

/// Where an object lies.
#[derive(Clone, Copy)]
pub(crate) struct Origin<'a> {
    /// The name of its file, or of the archive.
    pub file: &'a [u8],
    /// Its name in the archive.
    pub member: Option<&'a [u8]>,
}

/// Where the object of a path lies: `libx.a(y.o)` is the member `y.o` of the archive `libx.a`.
///
/// A path that ends with `)`, and has a `(` with at least one byte before it, names a member; the last `(`
/// begins it. Every other path is the name of a file.
pub(crate) fn find_origin(path: &[u8]) -> Origin<'_>
    ensures { seen result ≡ origin_of path.now }
{
    let whole = Origin {
        file: path,
        member: None,
    };
    let Some(inner) = path.strip_suffix(b")") else {
        return whole;
    };
    let start = after_open(inner);
    if start < 2 {
        return whole;
    }
    Origin {
        file: &inner[..start - 1],
        member: Some(&inner[start..]),
    }
}

/// How many bytes there are up to the last `(` and with it, or 0 where there is none.
fn after_open(path: &[u8]) -> usize
    ensures is { result ≡ length path.now - suffix_len (λ b. not (is_open b)) path.now }
    ensures within { result ≤ length path.now }
{
    let mut len = path.len();
    while len > 0 && path[len - 1] != b'(' {
        len -= 1;
    }
    len
}

/// The file in which the object lies that a symbol opens, where the file's name is text; `None` for any other symbol.
///
/// [`crate::debug_map`] names these files, in this order, and a caller may look for them while it is made.
pub fn opened_file(symbol: SymbolRef<'_>) -> Option<&str>
    ensures { option_copied result ≡ opened_file (symbol_seen symbol.entry) }
{
    match read_stab(symbol) {
        Stab::Object => as_text(find_origin(symbol.name).file),
        _ => None,
    }
}

/// Bytes as text, where they are UTF-8.
fn as_text(bytes: &[u8]) -> Option<&str>
    ensures { option_copied result ≡ text_in bytes.now }
{
    str::from_utf8(bytes).ok()
}
