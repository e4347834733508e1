//! One operation of an expression.

ghost use Rattle.std.specs.Prelude.{◌≡◌, ◌≤◌, []};
ghost use Rattle.ds_base.specs.Reading.{Reads, ReadsUnlessFull};
ghost use Rattle.dwarf_types.specs.Seen.{inner_seen};
ghost use Rattle.expr_walk.specs.Reading.{bytes_up_to, block_at, base_block_at, operands_at, address_in, base_of, base_in, is_outside, code_at, plain_from, plain_at, entry_value_from, op_from, op_at};
ghost use Rattle.expr_walk.specs.Steps.{Ahead, behind};

use crate::expression::read_inner;
use ds_base::dwarf::DWARF_5;
use ds_base::{Cursor, Fault, Kind, Part, ReadError};
use dwarf_types::{Addr, Base, InnerOpRef, Named, Operands, Ops, Place, operands_after};

/// Reads the next operation of an outermost expression, and puts it behind the others.
#[tactic(auto, unfolding(crate::specs::Reading::op_at))]
pub(crate) fn read_op(
    cursor: &mut Cursor,
    part: Part,
    version: u16,
    ops: &mut Ops,
) -> Result<(), ReadError>
    requires { ops.old.inner ≡ [] }
    ensures { ReadsUnlessFull (λ _. ops.new) result cursor.new (behind ops.old.ops (op_at version part cursor.old)) }
{
    let first = cursor.fork();
    let (code, operands) = read_code(cursor, version)?;
    read_op_behind(cursor, part, version, &first, code, operands, ops)
}

/// Reads the operation that begins at `first`, behind its code.
#[tactic(auto, unfolding(crate::specs::Reading::op_from))]
fn read_op_behind<'a>(
    cursor: &mut Cursor<'a>,
    part: Part,
    version: u16,
    first: &Cursor<'a>,
    code: u8,
    operands: Operands,
    ops: &mut Ops,
) -> Result<(), ReadError>
    requires ahead { Ahead first.now 1 cursor.old }
    requires none { ops.old.inner ≡ [] }
    ensures { ReadsUnlessFull (λ _. ops.new) result cursor.new (behind ops.old.ops (op_from version part first.now code operands cursor.old)) }
{
    match operands {
        Operands::Expression => read_entry_value(cursor, part, version, first, code, ops),
        other => {
            let op = read_plain_behind(cursor, first, code, other)?;
            ops.push(&op)?;
            Ok(())
        }
    }
}

/// Reads the entry value that begins at `first`, behind its code (DWARF 5, section 2.5.1.7).
#[tactic(auto, unfolding(crate::specs::Reading::entry_value_from))]
fn read_entry_value<'a>(
    cursor: &mut Cursor<'a>,
    part: Part,
    version: u16,
    first: &Cursor<'a>,
    code: u8,
    ops: &mut Ops,
) -> Result<(), ReadError>
    requires ahead { Ahead first.now 1 cursor.old }
    requires none { ops.old.inner ≡ [] }
    ensures { ReadsUnlessFull (λ _. ops.new) result cursor.new (behind ops.old.ops (entry_value_from version part first.now code cursor.old)) }
{
    let len = cursor.uleb()?;
    let place = cursor.place();
    let inside = cursor.skip(len)?;
    let end = cursor.place();
    read_inner(inside, part, place, version, ops)?;
    ops.push(&InnerOpRef {
        code,
        bytes: bytes_up_to(first, end),
        address: None,
        base: None,
    })?;
    Ok(())
}

/// The next operation of an expression inside an entry value.
#[tactic(auto, unfolding(crate::specs::Reading::plain_at))]
pub(crate) fn read_plain_op<'a>(
    cursor: &mut Cursor<'a>,
    version: u16,
) -> Result<InnerOpRef<'a>, Fault>
    ensures { Reads inner_seen result cursor.new (plain_at version cursor.old) }
{
    let first = cursor.fork();
    let (code, operands) = read_code(cursor, version)?;
    read_plain_behind(cursor, &first, code, operands)
}

/// The next operation's code and what stands behind it.
#[tactic(auto, unfolding(crate::specs::Reading::code_at))]
fn read_code(cursor: &mut Cursor, version: u16) -> Result<(u8, Operands), Fault>
    ensures { Reads (λ code. code) result cursor.new (code_at version cursor.old) }
{
    let first = cursor.fork();
    let code = cursor.u8()?;
    let Some(operands) = operands_after(code) else {
        return Err(first.fault(Kind::UnknownOp));
    };
    if is_outside(version, operands) {
        return Err(first.fault(Kind::OpOutsideProfile));
    }
    Ok((code, operands))
}

/// Whether an operation names an address of a table that a unit of the version doesn't have.
fn is_outside(version: u16, operands: Operands) -> bool
    ensures { result ≡ is_outside version operands }
{
    match operands {
        Operands::Index => version != DWARF_5,
        _ => false,
    }
}

/// The operation that begins at `first`, behind its code, where it is no entry value.
#[tactic(auto, unfolding(crate::specs::Reading::plain_from))]
fn read_plain_behind<'a>(
    cursor: &mut Cursor<'a>,
    first: &Cursor<'a>,
    code: u8,
    operands: Operands,
) -> Result<InnerOpRef<'a>, Fault>
    requires { Ahead first.now 1 cursor.old }
    ensures { Reads inner_seen result cursor.new (plain_from first.now code operands cursor.old) }
{
    let named = read_operands(cursor, operands, first)?;
    Ok(InnerOpRef {
        code,
        bytes: bytes_up_to(first, cursor.place()),
        address: address_named(named),
        base: base_named(named),
    })
}

/// The bytes from where a cursor stands up to a place.
#[tactic(auto, unfolding(crate::specs::Reading::bytes_up_to, ds_base::specs::Reading::bytes_at))]
fn bytes_up_to<'a>(first: &Cursor<'a>, end: u64) -> &'a [u8]
    requires behind { first.now.place ≤ end }
    requires inside { end ≤ first.now.end }
    ensures { result.now ≡ bytes_up_to first.now end }
{
    let mut from = first.fork();
    match from.skip(end - first.place()) {
        Ok(bytes) => bytes,
        Err(_) => unreachable!(),
    }
}

/// The operands of the operation that begins at `first`, and what they name.
#[tactic(auto, unfolding(crate::specs::Reading::operands_at))]
fn read_operands(cursor: &mut Cursor, operands: Operands, first: &Cursor) -> Result<Named, Fault>
    ensures { Reads (λ named. named) result cursor.new (operands_at operands first.now cursor.old) }
{
    match operands {
        Operands::Empty => Ok(Named::Nothing),
        Operands::Address => Ok(Named::Address(cursor.u64()?)),
        Operands::Fixed(width) => {
            cursor.skip(width)?;
            Ok(Named::Nothing)
        }
        Operands::Uleb => {
            cursor.uleb()?;
            Ok(Named::Nothing)
        }
        Operands::Sleb => {
            cursor.sleb()?;
            Ok(Named::Nothing)
        }
        Operands::UlebSleb => {
            cursor.uleb()?;
            cursor.sleb()?;
            Ok(Named::Nothing)
        }
        Operands::UlebUleb => {
            cursor.uleb()?;
            cursor.uleb()?;
            Ok(Named::Nothing)
        }
        Operands::Block => {
            read_block(cursor)?;
            Ok(Named::Nothing)
        }
        Operands::BaseBlock => read_base_block(cursor),
        Operands::UlebBase => {
            cursor.uleb()?;
            Ok(Named::BaseType(cursor.uleb()?))
        }
        Operands::ByteBase => {
            cursor.u8()?;
            Ok(Named::BaseType(cursor.uleb()?))
        }
        Operands::Base => Ok(Named::BaseType(cursor.uleb()?)),
        Operands::Index => Ok(Named::Index(cursor.uleb()?)),
        Operands::Expression => Err(first.fault(Kind::OpOutsideProfile)),
        Operands::Outside => Err(first.fault(Kind::OpOutsideProfile)),
    }
}

/// The bytes behind their length.
#[tactic(auto, unfolding(crate::specs::Reading::block_at))]
fn read_block<'a>(cursor: &mut Cursor<'a>) -> Result<&'a [u8], Fault>
    ensures { Reads (λ bytes. bytes.now) result cursor.new (block_at cursor.old) }
{
    let len = cursor.uleb()?;
    cursor.skip(len)
}

/// A base type, and a constant of that type behind its length.
#[tactic(auto, unfolding(crate::specs::Reading::base_block_at))]
fn read_base_block(cursor: &mut Cursor) -> Result<Named, Fault>
    ensures { Reads (λ named. named) result cursor.new (base_block_at cursor.old) }
{
    let base = cursor.uleb()?;
    let len = cursor.u8()?;
    cursor.skip(u64::from(len))?;
    Ok(Named::BaseType(base))
}

/// The address that is named, as it is stored, or its index.
fn address_named(named: Named) -> Option<Place>
    ensures { result ≡ address_in named }
{
    match named {
        Named::Address(n) => Some(Place {
            at: Addr::Fixed(n),
            linked: None,
            linked_end: None,
        }),
        Named::Index(n) => Some(Place {
            at: Addr::Fixed(n),
            linked: None,
            linked_end: None,
        }),
        Named::Nothing => None,
        Named::BaseType(_) => None,
    }
}

/// The base type that is named.
fn base_named(named: Named) -> Option<Base>
    ensures { result ≡ base_in named }
{
    match named {
        Named::BaseType(n) => Some(base_at(n)),
        Named::Nothing => None,
        Named::Address(_) => None,
        Named::Index(_) => None,
    }
}

/// The base type at a place of the unit. A place past 32 bits, where no entry stands, is told as the
/// last one below, where none stands either.
fn base_at(n: u64) -> Base
    ensures { result ≡ base_of n }
{
    if n == 0 {
        return Base::Generic;
    }
    Base::Entry(n.min(u64::from(u32::MAX)) as u32)
}
