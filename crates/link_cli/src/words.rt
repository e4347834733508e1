//! Words that name files.

ghost use Rattle.std.specs.Prelude.{◌≡◌};
ghost use Rattle.link_cli.specs.Words as spec;

use link_status::last_part;

/// Whether a path names a file: its last part is not empty and not that of a folder.
pub(crate) fn names_file(path: &str) -> bool
    ensures { result ≡ spec.names_file path.now }
{
    let part = last_part(path);
    part != "" && part != "." && part != ".."
}
