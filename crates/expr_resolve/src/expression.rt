//! An expression: its operations, understood.

ghost use Rattle.std.specs.Prelude.{◌≡◌, ◌+◌, ◌*◌, ◌^◌, ◌≤◌, ◌<◌, [], length, Ok, OnOk, OnErr};
ghost use Rattle.std.specs.List.{All, sum_by};
ghost use Rattle.ds_base.specs.Reading.{Gives};
ghost use Rattle.macho_read.specs.Sound.{IsSound as IsSoundImage};
ghost use Rattle.reloc_table.specs.Sound.{IsSound as AreSoundRelocs};
ghost use Rattle.addr_map.specs.Sound.{IsSound as IsSoundMap};
ghost use Rattle.expr_walk.specs.Length.{ops_len};
ghost use Rattle.expr_walk.specs.Reading.{walk_of};
ghost use Rattle.expr_resolve.specs.Context.{context_in, names_in, names_of, AreInOrder};
ghost use Rattle.expr_resolve.specs.Steps.{IsCut, IsSoundContext};
ghost use Rattle.expr_resolve.specs.Expressions.{expression_of, op_size, stored_expression_of};
ghost use Rattle.expr_resolve.specs.Sound.{NameKnown};

use crate::branches::try_branches;
use crate::context::{ExprContext, ExprNames};
use crate::indices::try_indices;
use crate::operations::resolve_ops;
use ds_base::ReadError;
use dwarf_types::Ops;
use expr_walk::walk;

/// Reads the operations of an expression, with what their operands mean (DWARF 4 and 5, section 7.7.1), in place of those
/// that are in `ops`. `stored` is for the operations as they are stored, in place of those that are there.
///
/// `first` is the place of its first byte, in bytes from the start of its part of the file, and faults are placed from
/// there too. The operand of `DW_OP_addr` is an address, and so is that of `DW_OP_const8u` where a relocation stands at
/// it. `DW_OP_addrx` becomes the `DW_OP_addr` that holds the entry of the unit's table of addresses, and `DW_OP_constx`
/// the `DW_OP_const8u` that does, which is an address where a relocation stands at the entry. A base type is told by the
/// number of its entry in the object. First all operations are cut, with the faults of `walk`. Then each in order, and
/// those inside an entry value behind it, is `BadOperandType` at its first byte where it names no base type of the unit;
/// the generic type, spelled 0, may be named in conversions alone. Then each, in the same order, is `BadIndex` at its
/// first byte where it names no entry of the table. Last comes `BranchOverRewrite` at the first byte of an expression that
/// branches while one of its operations has another length in the output, the outermost expression before those inside.
/// Then `stored` has the operations as `walk` cuts them. A refusal leaves no operations, in `stored` neither.
pub fn read_expression(
    context: &ExprContext,
    bytes: &[u8],
    first: u64,
    stored: &mut Ops,
    ops: &mut Ops,
) -> Result<(), ReadError>
    requires image { IsSoundImage context.now.image.now }
    requires relocs { AreSoundRelocs context.now.image.now context.now.relocs.now }
    requires map { IsSoundMap context.now.map.now }
    requires order { AreInOrder context.now.bases.now }
    requires addresses { AreSoundRelocs context.now.image.now context.now.addresses.now }
    requires small { length context.now.sections.now.addr.now < 2 ^ 32 }
    requires inside { first + length bytes.now < 2 ^ 32 }
    ensures exact { Gives (λ _. ops.new.ops) result (expression_of (context_in context.now) bytes.now first) }
    ensures none { OnOk result (ops.new.inner ≡ []) }

    // Each base type that the operations name is one of the expression's unit.
    ensures known { OnOk result (NameKnown (names_of (context_in context.now)) ops.new.ops) }

    // The length in the output has a bound, so that `new_length` may be called.
    ensures short { OnOk result (ops_len ops.new.ops ≤ 16 * length bytes.now) }

    ensures as_cut { OnOk result (walk_of bytes.now context.now.part first context.now.version ≡ Ok stored.new.ops) }
    ensures cleared { OnErr result (ops.new ≡ record { ops = []; inner = [] }) }
    ensures none_stored { OnErr result (stored.new ≡ record { ops = []; inner = [] }) }
{
    match understand(context, bytes, first, stored, ops) {
        Ok(()) => Ok(()),
        Err(error) => {
            stored.clear();
            ops.clear();
            Err(error)
        }
    }
}

/// The same, but a refusal may leave operations.
#[tactic(auto, unfolding(crate::specs::Expressions::expression_of))]
fn understand(
    context: &ExprContext,
    bytes: &[u8],
    first: u64,
    stored: &mut Ops,
    ops: &mut Ops,
) -> Result<(), ReadError>
    requires sound { IsSoundContext (context_in context.now) }
    requires inside { first + length bytes.now < 2 ^ 32 }
    ensures exact { Gives (λ _. ops.new.ops) result (expression_of (context_in context.now) bytes.now first) }
    ensures none { OnOk result (ops.new.inner ≡ []) }
    ensures known { OnOk result (NameKnown (names_of (context_in context.now)) ops.new.ops) }
    ensures short { OnOk result (ops_len ops.new.ops ≤ 16 * length bytes.now) }
    ensures as_cut { OnOk result (walk_of bytes.now context.now.part first context.now.version ≡ Ok stored.new.ops) }
{
    let names = context.names();
    cut(&names, bytes, first, stored)?;
    ops.clear();
    let stored = stored.as_ref();
    resolve_ops(context, first, &stored, ops)?;
    try_indices(&names, first, &stored)?;
    try_branches(&names, first, &stored)?;
    Ok(())
}

/// Reads the operations of an expression as they are stored, where nothing moves, in place of those that are in `ops`.
/// `stored` is for the same operations before their base types are told, in place of those that are there.
///
/// It is tried as [`read_expression`] tries it, with the same faults in the same order. An address is the number in its
/// field, and what an index names stays an index. A base type is told by the number of its entry in the object. A refusal
/// leaves no operations, in `stored` neither.
pub fn read_stored_expression(
    names: &ExprNames,
    bytes: &[u8],
    first: u64,
    stored: &mut Ops,
    ops: &mut Ops,
) -> Result<(), ReadError>
    requires order { AreInOrder names.now.bases.now }
    requires small { length names.now.sections.now.addr.now < 2 ^ 32 }
    requires inside { first + length bytes.now < 2 ^ 32 }
    ensures exact { Gives (λ _. ops.new.ops) result (stored_expression_of (names_in names.now) bytes.now first) }
    ensures none { OnOk result (ops.new.inner ≡ []) }

    ensures as_cut { OnOk result (walk_of bytes.now names.now.part first names.now.version ≡ Ok stored.new.ops) }
    ensures cleared { OnErr result (ops.new ≡ record { ops = []; inner = [] }) }
    ensures none_stored { OnErr result (stored.new ≡ record { ops = []; inner = [] }) }
{
    match read_stored(names, bytes, first, stored, ops) {
        Ok(()) => Ok(()),
        Err(error) => {
            stored.clear();
            ops.clear();
            Err(error)
        }
    }
}

/// The same, but a refusal may leave operations.
#[tactic(auto, unfolding(crate::specs::Expressions::stored_expression_of))]
fn read_stored(
    names: &ExprNames,
    bytes: &[u8],
    first: u64,
    stored: &mut Ops,
    ops: &mut Ops,
) -> Result<(), ReadError>
    requires order { AreInOrder (names_in names.now).bases }
    requires small { length (names_in names.now).sections.addr < 2 ^ 32 }
    requires inside { first + length bytes.now < 2 ^ 32 }
    ensures exact { Gives (λ _. ops.new.ops) result (stored_expression_of (names_in names.now) bytes.now first) }
    ensures none { OnOk result (ops.new.inner ≡ []) }
    ensures as_cut { OnOk result (walk_of bytes.now names.now.part first names.now.version ≡ Ok stored.new.ops) }
{
    cut(names, bytes, first, stored)?;
    ops.clear();
    let stored = stored.as_ref();
    resolve_ops(names, first, &stored, ops)?;
    try_indices(names, first, &stored)?;
    try_branches(names, first, &stored)?;
    Ok(())
}

/// The operations of an expression as they are cut.
fn cut(names: &ExprNames, bytes: &[u8], first: u64, ops: &mut Ops) -> Result<(), ReadError>
    requires { first + length bytes.now < 2 ^ 32 }
    ensures exact { Gives (λ _. ops.new.ops) result (walk_of bytes.now names.now.part first names.now.version) }
    ensures cut { OnOk result (All IsCut ops.new.ops) }
    ensures size { OnOk result (sum_by op_size ops.new.ops ≡ length bytes.now) }
    ensures short { OnOk result (ops_len ops.new.ops ≤ 16 * length bytes.now) }
{
    walk(bytes, names.part, first, names.version, ops)
}
