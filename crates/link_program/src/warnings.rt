//! What is told of an object whose file is let go.

ghost use Rattle.std.specs.Prelude.{◌≡◌, IfOk};
ghost use Rattle.link_program.specs.Warnings as spec;

use ds_base::{Bytes, NoMemory};
use link_status::line;
use stab_map::MapObject;
use std::alloc::Global;

/// Its line.
pub(crate) fn warning(alloc: Global, object: &MapObject) -> Result<Bytes, NoMemory>
    ensures { IfOk result (λ text. text ≡ spec.warning object.now) }
{
    line(alloc, "warning: missing: ", object.path.as_slice())
}
