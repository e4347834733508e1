//! What the tests share: how bytes are compared.

ghost use Rattle.std.specs.Prelude.{◌+◌, ◌≤◌, length};

use ds_base::cut;
use std::process::Abort;

/// From a place on a file has these bytes.
pub(crate) fn has_at(rt: &impl Abort, file: &[u8], at: usize, want: &[u8])
    requires { at + length want.now ≤ length file.now }
{
    assert!(rt; cut(file, at, want.len()) == want);
}
