//! Operations, one after the other.

ghost use Rattle.std.specs.Prelude.{◌≡◌, ◌+◌, ◌^◌, ◌<◌, ◌≤◌, [], length, OnOk};
ghost use Rattle.std.specs.List.{All, sum_by};
ghost use Rattle.ds_base.specs.Reading.{Gives};
ghost use Rattle.dwarf_types.specs.Seen.{inner_seen, op_seen};
ghost use Rattle.expr_resolve.specs.Steps.{IsCut, IsPlainCut, put_behind, with_meaning};
ghost use Rattle.expr_resolve.specs.Expressions.{each_from, inner_start, op_by, op_size, plain_size};

use crate::operand::{Meaning, Understands};
use ds_base::ReadError;
use dwarf_types::{InnerOpRef, InnerOpsRef, OpRef, Ops, OpsRef};

/// Puts what the operations of an expression become, one behind the other. `first` is the place of its first byte.
pub(crate) fn resolve_ops<M: Understands>(
    by: &M,
    first: u64,
    stored: &OpsRef<'_>,
    ops: &mut Ops,
) -> Result<(), ReadError>
    requires ready { M.ready by.now }
    requires none { ops.old ≡ record { ops = []; inner = [] } }
    requires cut { All IsCut stored.now }
    requires inside { first + sum_by op_size stored.now < 2 ^ 32 }
    ensures exact { Gives (λ _. ops.new.ops) result (each_from op_size (op_by (M.meant by.now)) first stored.now) }
    ensures none { OnOk result (ops.new.inner ≡ []) }
{
    let mut place = first;
    for k in 0..stored.len() {
        let op = stored.op(k);
        resolve_op(by, place, &op, ops)?;
        place += op.bytes.len() as u64;
    }
    Ok(())
}

/// Puts what an operation becomes behind the others: first it is understood, then those inside are.
fn resolve_op<M: Understands>(
    by: &M,
    place: u64,
    op: &OpRef<'_>,
    ops: &mut Ops,
) -> Result<(), ReadError>
    requires ready { M.ready by.now }
    requires none { ops.old.inner ≡ [] }
    requires cut { IsCut (op_seen op.now) }
    requires inside { place + length op.now.bytes.now < 2 ^ 32 }
    ensures { Gives (λ _. ops.new) result (put_behind ops.old.ops (op_by (M.meant by.now) place (op_seen op.now))) }
{
    let outer = op.outside();
    let meaning = by.meaning_of(place, &outer)?;
    let first = inner_first(place, op);
    resolve_inner(by, first, &op.inner, ops)?;
    ops.push(&with_meaning(&outer, &meaning))?;
    Ok(())
}

/// An operation, as what it becomes.
fn with_meaning<'a>(op: &InnerOpRef<'a>, meaning: &'a Meaning) -> InnerOpRef<'a>
    ensures { inner_seen result ≡ with_meaning (inner_seen op.now) meaning.now }
{
    match meaning {
        Meaning::Stands { address, base } => InnerOpRef {
            code: op.code,
            bytes: op.bytes,
            address: *address,
            base: *base,
        },
        Meaning::Holds {
            code,
            bytes,
            address,
            base,
        } => InnerOpRef {
            code: *code,
            bytes,
            address: *address,
            base: *base,
        },
    }
}

/// The place of the first byte of the expression inside, which stands at the operation's end.
pub(crate) fn inner_first(place: u64, op: &OpRef<'_>) -> u64
    requires inner { sum_by plain_size op.now.inner ≤ length op.now.bytes.now }
    requires inside { place + length op.now.bytes.now < 2 ^ 32 }
    ensures { result ≡ inner_start place (op_seen op.now) }
{
    place + op.bytes.len() as u64 - inner_size(&op.inner)
}

/// The count of bytes of the operations inside.
fn inner_size(ops: &InnerOpsRef<'_>) -> u64
    requires { sum_by plain_size ops.now < 2 ^ 64 }
    ensures { result ≡ sum_by plain_size ops.now }
{
    let mut size: u64 = 0;
    for k in 0..ops.len() {
        size += ops.op(k).bytes.len() as u64;
    }
    size
}

/// Puts what the operations inside the next one become, one behind the other. `first` is the place of their first byte.
fn resolve_inner<M: Understands>(
    by: &M,
    first: u64,
    stored: &InnerOpsRef<'_>,
    ops: &mut Ops,
) -> Result<(), ReadError>
    requires ready { M.ready by.now }
    requires none { ops.old.inner ≡ [] }
    requires cut { All IsPlainCut stored.now }
    requires inside { first + sum_by plain_size stored.now < 2 ^ 32 }
    ensures inner { Gives (λ _. ops.new.inner) result (each_from plain_size (M.meant by.now) first stored.now) }
    ensures others { OnOk result (ops.new.ops ≡ ops.old.ops) }
{
    let mut place = first;
    for j in 0..stored.len() {
        let op = stored.op(j);
        let meaning = by.meaning_of(place, &op)?;
        ops.push_inner(&with_meaning(&op, &meaning))?;
        place += op.bytes.len() as u64;
    }
    Ok(())
}
