//! The length of an expression in the output.

ghost use Rattle.std.specs.Prelude.{◌≡◌, ◌<◌, ◌≤◌, ◌^◌, length, drop};
ghost use Rattle.dwarf_types.specs.Operations.{operands_of};
ghost use Rattle.dwarf_types.specs.Seen.{op_seen};
ghost use Rattle.expr_walk.specs.Length.{front_leb_len, respelled_len, plain_len, inner_len, op_len, ops_len};

use ds_base::{bytes_from, uleb_len};
use dwarf_types::{InnerOpRef, InnerOpsRef, OpRef, Operands, OpsRef, operands_after};

/// The length of an expression in the output, in bytes.
///
/// There each base type is spelled in four bytes, whatever they were before, and the length of the expression inside an
/// entry value in as few as it takes. What an operation names by an index of a table of addresses stands in the operation,
/// in eight bytes behind its code. All else keeps its length, addresses too.
pub fn new_length(ops: &OpsRef<'_>) -> u64
    requires { ops_len ops.now < 2 ^ 64 }
    ensures { result ≡ ops_len ops.now }
{
    let mut len: u64 = 0;
    for k in 0..ops.len() {
        len += new_op_length(&ops.op(k));
    }
    len
}

/// The length of an operation in the output, in bytes.
pub fn new_op_length(op: &OpRef<'_>) -> u64
    requires { op_len (operands_of op.now.code) (op_seen op.now) < 2 ^ 64 }
    ensures { result ≡ op_len (operands_of op.now.code) (op_seen op.now) }
{
    match operands_after(op.code) {
        Some(Operands::Expression) => {
            let inner = inner_length(&op.inner);
            1 + uleb_len(inner) + inner
        }
        other => plain_length(other, op.bytes),
    }
}

/// The length of the expression inside an entry value.
fn inner_length(ops: &InnerOpsRef<'_>) -> u64
    requires { inner_len ops.now < 2 ^ 64 }
    ensures { result ≡ inner_len ops.now }
{
    let mut len: u64 = 0;
    for k in 0..ops.len() {
        len += new_plain_length(&ops.op(k));
    }
    len
}

/// The length in the output of an operation that stands inside an entry value, in bytes.
pub fn new_plain_length(op: &InnerOpRef<'_>) -> u64
    ensures { result ≡ plain_len (operands_of op.now.code) op.now.bytes.now }
{
    plain_length(operands_after(op.code), op.bytes)
}

/// The length of an operation that is no entry value, by its operands.
fn plain_length(operands: Option<Operands>, bytes: &[u8]) -> u64
    ensures { result ≡ plain_len operands bytes.now }
{
    match operands {
        Some(Operands::Base) => respelled_length(bytes, 1),
        Some(Operands::BaseBlock) => respelled_length(bytes, 1),
        Some(Operands::ByteBase) => respelled_length(bytes, 2),
        Some(Operands::UlebBase) => respelled_length(bytes, 1 + leb_len_at(bytes, 1)),
        Some(Operands::Index) => 9,
        _ => bytes.len() as u64,
    }
}

/// The length of the bytes where the LEB number at a place of them is spelled in four.
fn respelled_length(bytes: &[u8], at: usize) -> u64
    ensures { result ≡ respelled_len bytes.now at }
{
    (bytes.len() - leb_len_at(bytes, at)) as u64 + 4
}

/// The length of the LEB number at a place of some bytes, 0 where they end before it.
fn leb_len_at(bytes: &[u8], at: usize) -> usize
    ensures is { result ≡ front_leb_len (drop at bytes.now) }
    ensures few { result ≤ length bytes.now }
{
    if at >= bytes.len() {
        return 0;
    }
    leb_len(bytes_from(bytes, at))
}

/// The length of the LEB number at the front of some bytes.
fn leb_len(bytes: &[u8]) -> usize
    ensures is { result ≡ front_leb_len bytes.now }
    ensures few { result ≤ length bytes.now }
{
    for (i, b) in bytes.iter().enumerate() {
        if *b < 128 {
            return i + 1;
        }
    }
    bytes.len()
}
