//! Expressions, part by part.

ghost use Rattle.std.specs.Prelude.{◌≡◌, true, is_some, length, IfOk, OnOk};
ghost use Rattle.std.specs.List.{All, list_all};
ghost use Rattle.clone_values.specs.Cut.{is_nested, with_op};
ghost use Rattle.clone_values.specs.Images.{OpAmong, image_at};
ghost use Rattle.dwarf_types.specs.LinkedExpressions.{parts_of};
ghost use Rattle.dwarf_types.specs.LinkedValues.{all_move};
ghost use Rattle.dwarf_types.specs.Moves.{op_fields};
ghost use Rattle.dwarf_types.specs.Operations.{operands_of};
ghost use Rattle.dwarf_types.specs.Seen.{op_seen};

use crate::cutting::Cutting;
use crate::inside::plain_parts;
use ds_base::{List, NoMemory};
use dwarf_types::{ExprPart, OpRef, Operands, OpsRef, Target, operands_after};
use std::alloc::Global;

/// The parts of an expression as it is written, with stretches of bytes as long as can be.
pub(crate) fn parts_of(
    alloc: Global,
    images: &[Option<Target>],
    ops: &OpsRef,
) -> Result<List<ExprPart>, NoMemory>
    requires moved { all_move ops.now ≡ true }
    requires among { All (OpAmong (length images.now)) ops.now }
    ensures { IfOk result (λ parts. parts ≡ parts_of (image_at images.now) ops.now) }
{
    let mut cutting = Cutting::behind(List::with_capacity(alloc, 1)?);
    for k in 0..ops.len() {
        add_op(alloc, images, &ops.op(k), &mut cutting)?;
    }
    cutting.end()
}

/// Cuts one operation more.
fn add_op(
    alloc: Global,
    images: &[Option<Target>],
    op: &OpRef,
    cutting: &mut Cutting<ExprPart>,
) -> Result<(), NoMemory>
    requires moved { list_all (λ place. is_some place.linked) (op_fields (op_seen op.now)) ≡ true }
    requires among { OpAmong (length images.now) (op_seen op.now) }
    ensures { OnOk result (cutting.new ≡ with_op (image_at images.now) (operands_of op.now.code) (op_seen op.now) cutting.old) }
{
    if is_nested(op.code) {
        let parts = plain_parts(alloc, images, &op.inner)?;
        return cutting.push(ExprPart::Nested {
            code: op.code,
            parts,
        });
    }
    cutting.add(alloc, images, &op.outside())
}

/// Whether an operation is an entry value.
fn is_nested(code: u8) -> bool
    ensures { result ≡ is_nested (operands_of code) }
{
    matches!(operands_after(code), Some(Operands::Expression))
}
