//! All operations of an expression.

ghost use Rattle.std.specs.Prelude.{◌≡◌, ◌+◌, ◌-◌, ◌*◌, ◌^◌, ◌≤◌, [], length, OnOk, OnErr};
ghost use Rattle.std.specs.List.{flat_map};
ghost use Rattle.ds_base.specs.Reading.{Gives};
ghost use Rattle.expr_walk.specs.Length.{ops_len};
ghost use Rattle.expr_walk.specs.Reading.{plain_at, op_at, expression_of, inner_of, walk_of};
ghost use Rattle.expr_walk.specs.Steps.{error_from, is_placed_below};

use crate::op::{read_op, read_plain_op};
use ds_base::{Cursor, Fault, Part, ReadError};
use dwarf_types::Ops;

/// Reads the operations of an expression (DWARF 4 and 5, section 7.7.1), one after the other up to its end, in place of
/// those that are in `ops`.
///
/// `first` is the place of the expression's first byte in the part, in bytes from the part's start, and faults are
/// placed from there too; they are `Truncated`, `LebTooWide`, `UnknownOp` and `OpOutsideProfile`. `version` is that of
/// the expression's unit: `DW_OP_addrx` and `DW_OP_constx` are `OpOutsideProfile` where it isn't 5. An operation holds
/// all its bytes, those of the expression inside an entry value with it. The operand of `DW_OP_addr` is `Fixed` of the
/// stored number, that of `DW_OP_addrx` and `DW_OP_constx` is `Fixed` of the index, and each has gone nowhere yet. A
/// base type is told by its place in the unit; a number past 32 bits is told as 2^32 - 1, where no entry can stand. A
/// refusal leaves no operations.
#[tactic(auto, unfolding(crate::specs::Reading::walk_of))]
pub fn walk(
    bytes: &[u8],
    part: Part,
    first: u64,
    version: u16,
    ops: &mut Ops,
) -> Result<(), ReadError>
    requires { first + length bytes.now ≤ 2 ^ 64 - 1 }
    ensures exact { Gives (λ _. ops.new.ops) result (walk_of bytes.now part first version) }

    // None waits to stand inside the next one.
    ensures none { OnOk result (ops.new.inner ≡ []) }

    // No byte is left out, and none is told twice.
    ensures whole { OnOk result (flat_map (λ op. op.bytes) ops.new.ops ≡ bytes.now) }

    // The length in the output has a bound, so that `new_length` may be called.
    ensures short { OnOk result (ops_len ops.new.ops ≤ 16 * length bytes.now) }

    ensures cleared { OnErr result (ops.new ≡ record { ops = []; inner = [] }) }
{
    ops.clear();
    match read_ops(bytes, part, version, ops) {
        Ok(()) => Ok(()),
        Err(error) => {
            ops.clear();
            Err(placed_from(first, error))
        }
    }
}

/// Reads the operations of the expression inside an entry value, which will stand inside the next operation. `first` is
/// the place of its first byte.
#[tactic(auto, unfolding(crate::specs::Reading::inner_of))]
pub(crate) fn read_inner(
    bytes: &[u8],
    part: Part,
    first: u64,
    version: u16,
    ops: &mut Ops,
) -> Result<(), ReadError>
    requires none { ops.old.inner ≡ [] }
    requires place { first + length bytes.now ≤ 2 ^ 64 - 1 }
    ensures inner { Gives (λ _. ops.new.inner) result (inner_of version bytes.now part first) }
    ensures others { OnOk result (ops.new.ops ≡ ops.old.ops) }
{
    match read_plain_ops(bytes, part, version, ops) {
        Ok(()) => Ok(()),
        Err(error) => Err(placed_from(first, error)),
    }
}

/// A refusal, with its place counted from where `first` is counted from.
fn placed_from(first: u64, error: ReadError) -> ReadError
    requires { is_placed_below (2 ^ 64 - first) error }
    ensures { result ≡ error_from first error }
{
    match error {
        ReadError::Faulty(fault) => ReadError::Faulty(Fault {
            kind: fault.kind,
            section: fault.section,
            place: first + fault.place,
        }),
        ReadError::NoMemory => ReadError::NoMemory,
    }
}

/// Reads the operations of an outermost expression. Places of faults are counted from its first byte.
fn read_ops(bytes: &[u8], part: Part, version: u16, ops: &mut Ops) -> Result<(), ReadError>
    requires { ops.old ≡ record { ops = []; inner = [] } }
    ensures ops { Gives (λ _. ops.new.ops) result (expression_of (op_at version part) part bytes.now) }
    ensures none { OnOk result (ops.new.inner ≡ []) }
{
    let mut cursor = Cursor::new(bytes, part, 0, bytes.len() as u64);
    while cursor.left() > 0 {
        read_op(&mut cursor, part, version, ops)?;
    }
    Ok(())
}

/// Reads the operations of an expression inside an entry value, which will stand inside the next operation. Places of
/// faults are counted from its first byte.
fn read_plain_ops(bytes: &[u8], part: Part, version: u16, ops: &mut Ops) -> Result<(), ReadError>
    requires { ops.old.inner ≡ [] }
    ensures inner { Gives (λ _. ops.new.inner) result (expression_of (plain_at version) part bytes.now) }
    ensures others { OnOk result (ops.new.ops ≡ ops.old.ops) }
{
    let mut cursor = Cursor::new(bytes, part, 0, bytes.len() as u64);
    while cursor.left() > 0 {
        let op = read_plain_op(&mut cursor, version)?;
        ops.push_inner(&op)?;
    }
    Ok(())
}
