//! Expressions that stand inside an entry value.

ghost use Rattle.std.specs.Prelude.{◌≡◌, length, IfOk};
ghost use Rattle.std.specs.List.{All};
ghost use Rattle.clone_values.specs.Cut.{HasMoved};
ghost use Rattle.clone_values.specs.Images.{BaseAmong, image_at};
ghost use Rattle.dwarf_types.specs.LinkedExpressions.{plain_parts};

use crate::cutting::Cutting;
use ds_base::{List, NoMemory};
use dwarf_types::{InnerOpsRef, PlainPart, Target};
use std::alloc::Global;

/// The parts of an expression inside an entry value.
pub(crate) fn plain_parts(
    alloc: Global,
    images: &[Option<Target>],
    ops: &InnerOpsRef,
) -> Result<List<PlainPart>, NoMemory>
    requires moved { All (λ op. HasMoved op.address) ops.now }
    requires among { All (λ op. BaseAmong (length images.now) op.base) ops.now }
    ensures { IfOk result (λ parts. parts ≡ plain_parts (image_at images.now) ops.now) }
{
    let mut cutting = Cutting::behind(List::new(alloc));
    for k in 0..ops.len() {
        cutting.add(alloc, images, &ops.op(k))?;
    }
    cutting.end()
}
