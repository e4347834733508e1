//! Branches: an expression that has one must keep its length, since a branch counts bytes (DWARF 4, section 2.5.1.5).

ghost use Rattle.std.specs.Prelude.{◌≡◌, ◌+◌, ◌^◌, ◌<◌, ◌≤◌, length};
ghost use Rattle.std.specs.List.{All, list_any, sum_by};
ghost use Rattle.ds_base.specs.Reading.{Finds};
ghost use Rattle.dwarf_types.specs.Seen.{op_seen};
ghost use Rattle.expr_walk.specs.Length.{ops_len};
ghost use Rattle.expr_resolve.specs.Context.{names_in};
ghost use Rattle.expr_resolve.specs.Steps.{all_inside_tried, IsCut, outermost_tried};
ghost use Rattle.expr_resolve.specs.Expressions.{branches_tried, inner_tried, is_branch, op_changes, op_size, plain_changes, plain_size};

use crate::context::ExprNames;
use crate::length::{changes_length, changes_plain_length};
use crate::operand::fault_at;
use crate::operations::inner_first;
use ds_base::dwarf::{DW_OP_bra, DW_OP_skip};
use ds_base::{Fault, Kind};
use dwarf_types::{InnerOpsRef, OpRef, OpsRef};

/// Tests that no expression branches over an operation that changes its length: first the outermost expression, whose
/// first byte stands at `first`, then those inside its operations, in order. The fault is `BranchOverRewrite`, placed at
/// the first byte of its expression.
pub(crate) fn try_branches(names: &ExprNames, first: u64, ops: &OpsRef<'_>) -> Result<(), Fault>
    requires cut { All IsCut ops.now }
    requires short { ops_len ops.now < 2 ^ 64 }
    requires inside { first + sum_by op_size ops.now < 2 ^ 32 }
    ensures { Finds (λ _. tt) result (branches_tried (names_in names.now) first ops.now) }
{
    try_outermost(names, first, ops)?;
    try_all_inside(names, first, ops)
}

/// Tests an outermost expression.
fn try_outermost(names: &ExprNames, first: u64, ops: &OpsRef<'_>) -> Result<(), Fault>
    requires { ops_len ops.now < 2 ^ 64 }
    ensures { Finds (λ _. tt) result (outermost_tried (names_in names.now) first ops.now) }
{
    if has_branch(ops) && has_changed(ops) {
        return Err(fault_at(names, Kind::BranchOverRewrite, first));
    }
    Ok(())
}

/// Tests the expressions inside operations, the first of which begins at `first`.
fn try_all_inside(names: &ExprNames, first: u64, ops: &OpsRef<'_>) -> Result<(), Fault>
    requires cut { All IsCut ops.now }
    requires inside { first + sum_by op_size ops.now < 2 ^ 32 }
    ensures { Finds (λ _. tt) result (all_inside_tried (names_in names.now) first ops.now) }
{
    let mut place = first;
    for k in 0..ops.len() {
        let op = ops.op(k);
        try_inside(names, place, &op)?;
        place += op.bytes.len() as u64;
    }
    Ok(())
}

/// Tests the expression inside an operation that begins at `place`.
fn try_inside(names: &ExprNames, place: u64, op: &OpRef<'_>) -> Result<(), Fault>
    requires inner { sum_by plain_size op.now.inner ≤ length op.now.bytes.now }
    requires inside { place + length op.now.bytes.now < 2 ^ 32 }
    ensures { Finds (λ _. tt) result (inner_tried (names_in names.now) place (op_seen op.now)) }
{
    if has_plain_branch(&op.inner) && has_plain_changed(&op.inner) {
        let first = inner_first(place, op);
        return Err(fault_at(names, Kind::BranchOverRewrite, first));
    }
    Ok(())
}

/// Whether an operation of an expression branches.
fn has_branch(ops: &OpsRef<'_>) -> bool
    ensures { result ≡ list_any (λ op. is_branch op.code) ops.now }
{
    for k in 0..ops.len() {
        if branches(ops.op(k).code) {
            return true;
        }
    }
    false
}

/// Whether an operation of an expression has another length in the output.
fn has_changed(ops: &OpsRef<'_>) -> bool
    requires { ops_len ops.now < 2 ^ 64 }
    ensures { result ≡ list_any op_changes ops.now }
{
    for k in 0..ops.len() {
        if changes_length(&ops.op(k)) {
            return true;
        }
    }
    false
}

/// Whether an operation of the expression inside an entry value branches.
fn has_plain_branch(ops: &InnerOpsRef<'_>) -> bool
    ensures { result ≡ list_any (λ op. is_branch op.code) ops.now }
{
    for k in 0..ops.len() {
        if branches(ops.op(k).code) {
            return true;
        }
    }
    false
}

/// Whether an operation of the expression inside an entry value has another length in the output.
fn has_plain_changed(ops: &InnerOpsRef<'_>) -> bool
    ensures { result ≡ list_any plain_changes ops.now }
{
    for k in 0..ops.len() {
        if changes_plain_length(&ops.op(k)) {
            return true;
        }
    }
    false
}

/// Whether an operation of this code branches.
fn branches(code: u8) -> bool
    ensures { result ≡ is_branch code }
{
    code == DW_OP_bra || code == DW_OP_skip
}
