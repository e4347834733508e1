//! Indices: each names an entry of the unit's table of addresses.

ghost use Rattle.std.specs.Prelude.{◌≡◌, ◌+◌, ◌^◌, ◌<◌, ◌≤◌, length};
ghost use Rattle.std.specs.List.{All, sum_by};
ghost use Rattle.ds_base.specs.Reading.{Finds};
ghost use Rattle.dwarf_types.specs.Seen.{inner_seen, op_seen};
ghost use Rattle.expr_resolve.specs.Context.{names_in};
ghost use Rattle.expr_resolve.specs.Steps.{IsCut, inner_indexed};
ghost use Rattle.expr_resolve.specs.Expressions.{indices_tried, op_indexed, op_size, plain_indexed, plain_size};

use crate::context::ExprNames;
use crate::entry::is_lost;
use crate::operand::fault_at;
use crate::operations::inner_first;
use ds_base::{Fault, Kind};
use dwarf_types::{InnerOpRef, InnerOpsRef, OpRef, OpsRef};

/// Tests that each entry is there that an operation of an expression names, or one inside, in order. The first byte of the
/// expression stands at `first`. The fault is `BadIndex`, placed at the first byte of its operation.
pub(crate) fn try_indices(names: &ExprNames, first: u64, ops: &OpsRef<'_>) -> Result<(), Fault>
    requires small { length (names_in names.now).sections.addr < 2 ^ 32 }
    requires cut { All IsCut ops.now }
    requires inside { first + sum_by op_size ops.now < 2 ^ 32 }
    ensures { Finds (λ _. tt) result (indices_tried (names_in names.now) first ops.now) }
{
    let mut place = first;
    for k in 0..ops.len() {
        let op = ops.op(k);
        try_op(names, place, &op)?;
        place += op.bytes.len() as u64;
    }
    Ok(())
}

/// Tests an operation that begins at `place`, and then those inside.
fn try_op(names: &ExprNames, place: u64, op: &OpRef<'_>) -> Result<(), Fault>
    requires small { length (names_in names.now).sections.addr < 2 ^ 32 }
    requires inner { sum_by plain_size op.now.inner ≤ length op.now.bytes.now }
    requires inside { place + length op.now.bytes.now < 2 ^ 32 }
    ensures { Finds (λ _. tt) result (op_indexed (names_in names.now) place (op_seen op.now)) }
{
    try_plain(names, place, &op.outside())?;
    let first = inner_first(place, op);
    try_inner(names, first, &op.inner)
}

/// Tests the operations inside, the first of which begins at `first`.
fn try_inner(names: &ExprNames, first: u64, ops: &InnerOpsRef<'_>) -> Result<(), Fault>
    requires small { length (names_in names.now).sections.addr < 2 ^ 32 }
    requires inside { first + sum_by plain_size ops.now < 2 ^ 32 }
    ensures { Finds (λ _. tt) result (inner_indexed (names_in names.now) first ops.now) }
{
    let mut place = first;
    for k in 0..ops.len() {
        let op = ops.op(k);
        try_plain(names, place, &op)?;
        place += op.bytes.len() as u64;
    }
    Ok(())
}

/// Tests an operation that begins at `place`, whatever stands inside it.
fn try_plain(names: &ExprNames, place: u64, op: &InnerOpRef<'_>) -> Result<(), Fault>
    requires small { length (names_in names.now).sections.addr < 2 ^ 32 }
    ensures { Finds (λ _. tt) result (plain_indexed (names_in names.now) place (inner_seen op.now)) }
{
    if is_lost(names, op.code, op.address) {
        return Err(fault_at(names, Kind::BadIndex, place));
    }
    Ok(())
}
