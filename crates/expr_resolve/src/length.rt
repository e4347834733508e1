//! Whether an operation has another length in the output, where each base type is spelled in four bytes.

ghost use Rattle.std.specs.Prelude.{◌≡◌, ◌<◌, ◌^◌};
ghost use Rattle.dwarf_types.specs.Operations.{operands_of};
ghost use Rattle.dwarf_types.specs.Seen.{inner_seen, op_seen};
ghost use Rattle.expr_walk.specs.Length.{op_len};
ghost use Rattle.expr_resolve.specs.Expressions.{op_changes, plain_changes};

use dwarf_types::{InnerOpRef, OpRef};
use expr_walk::{new_op_length, new_plain_length};

/// Whether an operation has another length in the output.
pub(crate) fn changes_length(op: &OpRef<'_>) -> bool
    requires { op_len (operands_of op.now.code) (op_seen op.now) < 2 ^ 64 }
    ensures { result ≡ op_changes (op_seen op.now) }
{
    new_op_length(op) != op.bytes.len() as u64
}

/// Whether an operation inside an entry value has another length in the output.
pub(crate) fn changes_plain_length(op: &InnerOpRef<'_>) -> bool
    ensures { result ≡ plain_changes (inner_seen op.now) }
{
    new_plain_length(op) != op.bytes.len() as u64
}
