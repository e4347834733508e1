//! An operation that names a base type.

ghost use Rattle.std.specs.Prelude.{◌≡◌, Some, drop, length, IfOk};
ghost use Rattle.clone_values.specs.Images.{BaseAmong, image_at};
ghost use Rattle.dwarf_types.specs.declared.parts.PlainPart.TheVariants as plain;
ghost use Rattle.dwarf_types.specs.LinkedExpressions.{base_node, before_base, behind_base};
ghost use Rattle.dwarf_types.specs.Operations.{operands_of};

use crate::images::base_node;
use crate::operands::{before_base, behind_base, behind_code};
use ds_base::{Bytes, NoMemory};
use dwarf_types::{Base, PlainPart, Target, operands_after};
use std::alloc::Global;

/// An operation that names a base type, with the operands around that.
pub(crate) fn cut_typed(
    alloc: Global,
    images: &[Option<Target>],
    code: u8,
    bytes: &[u8],
    base: Base,
) -> Result<PlainPart, NoMemory>
    requires among { BaseAmong (length images.now) (Some base) }
    ensures { IfOk result (λ part. part ≡ plain.Typed code (before_base (operands_of code) (drop 1 bytes.now)) (base_node (image_at images.now) base) (behind_base (operands_of code) (drop 1 bytes.now))) }
{
    let row = operands_after(code);
    let operands = behind_code(bytes);
    Ok(PlainPart::Typed {
        code,
        before: Bytes::from_slice(alloc, before_base(row, operands))?,
        base: base_node(images, base),
        after: Bytes::from_slice(alloc, behind_base(row, operands))?,
    })
}
