//! Operands: the address or the base type that an operation names.

ghost use Rattle.std.specs.Prelude.{◌≡◌, ◌+◌, ◌^◌, ◌<◌, ◌≤◌, [], ◌∷◌, length};
ghost use Rattle.ds_base.specs.Reading.{Finds};
ghost use Rattle.dwarf_types.specs.declared.expr.PlainOp.{PlainOp as APlainOp};
ghost use Rattle.dwarf_types.specs.Seen.{inner_seen};
ghost use Rattle.expr_resolve.specs.Context.{context_in, names_in, AreInOrder};
ghost use Rattle.expr_resolve.specs.Steps.{bare, HoldsOperand, IsSoundContext, with_meaning};
ghost use Rattle.expr_resolve.specs.Expressions.{address_meant, base_meant, base_named, fault_in, held, holds_address, is_conversion, operand_place, plain_meant};

use crate::context::{ExprContext, ExprNames};
use crate::entry::{entry_address, find_entry, holding_code};
use crate::lookup::{find_base, is_relocated};
use byteorder::{ByteOrder, LittleEndian};
use ds_base::dwarf::{DW_OP_addr, DW_OP_const8u, DW_OP_convert, DW_OP_reinterpret};
use ds_base::{Fault, Kind, cut};
use dwarf_types::{Base, InnerOpRef, Place};
use moved_parts::place as place_of;
use reloc_table::resolve;

/// A fault of the expression's part of the file.
pub(crate) fn fault_at(names: &ExprNames, kind: Kind, place: u64) -> Fault
    ensures { result ≡ fault_in (names_in names.now) kind place }
{
    Fault {
        kind,
        section: names.part,
        place,
    }
}

/// What an operation becomes: it stands as it was stored, with what its operands mean, or it holds an entry of the unit's
/// table of addresses in its eight bytes.
#[derive(Clone, Copy)]
pub(crate) enum Meaning {
    Stands {
        address: Option<Place>,
        base: Option<Base>,
    },
    Holds {
        code: u8,
        bytes: [u8; 9],
        address: Option<Place>,
        base: Option<Base>,
    },
}

/// By what an operation becomes something else, whatever stands inside it.
pub(crate) trait Understands {
    ghost use Rattle.std.specs.Prelude.{ℕ, Result, ◌+◌, ◌^◌, ◌<◌, length};
    ghost use Rattle.ds_base.specs.declared.fault.Fault.{Fault};
    ghost use Rattle.ds_base.specs.Reading.{Finds};
    ghost use Rattle.dwarf_types.specs.declared.expr.PlainOp.{PlainOp};
    ghost use Rattle.dwarf_types.specs.Seen.{inner_seen};
    ghost use Rattle.expr_resolve.specs.Steps.{HoldsOperand, with_meaning};

    /// All by which it is understood is sound.
    ghost ready: { Self → Type 0 };

    /// What an operation is that begins at a place.
    ghost meant: { Self → ℕ → PlainOp → Result PlainOp Fault };

    /// What an operation becomes. `place` is that of its first byte.
    fn meaning_of(&self, place: u64, op: &InnerOpRef<'_>) -> Result<Meaning, Fault>
        requires ready { ready self.now }
        requires operand { HoldsOperand op.now.code op.now.bytes.now }
        requires inside { place + length op.now.bytes.now < 2 ^ 32 }
        ensures { Finds (with_meaning (inner_seen op.now)) result (meant self.now place (inner_seen op.now)) };
}

/// Addresses are moved, and what an index names stands in the operation.
impl<'a> Understands for ExprContext<'a> {
    ghost use Rattle.expr_resolve.specs.Context.{context_in};
    ghost use Rattle.expr_resolve.specs.Expressions.{plain_meant};
    ghost use Rattle.expr_resolve.specs.Steps.{IsSoundContext};

    ghost ready = { λ s. IsSoundContext (context_in s) };

    ghost meant = { λ s. plain_meant (context_in s) };

    fn meaning_of(&self, place: u64, op: &InnerOpRef<'_>) -> Result<Meaning, Fault> {
        moved_meaning(self, place, op)
    }
}

/// Each stands as it is stored, but for its base type.
impl<'a> Understands for ExprNames<'a> {
    ghost use Rattle.expr_resolve.specs.Context.{AreInOrder, names_in};
    ghost use Rattle.expr_resolve.specs.Expressions.{plain_stored};

    ghost ready = { λ s. AreInOrder (names_in s).bases };

    ghost meant = { λ s. plain_stored (names_in s) };

    fn meaning_of(&self, place: u64, op: &InnerOpRef<'_>) -> Result<Meaning, Fault> {
        Ok(Meaning::Stands {
            address: op.address,
            base: resolve_base(self, place, op.code, op.base)?,
        })
    }
}

/// What an operation becomes where its addresses are moved.
fn moved_meaning(context: &ExprContext, place: u64, op: &InnerOpRef<'_>) -> Result<Meaning, Fault>
    requires sound { IsSoundContext (context_in context.now) }
    requires operand { HoldsOperand op.now.code op.now.bytes.now }
    requires inside { place + length op.now.bytes.now < 2 ^ 32 }
    ensures { Finds (with_meaning (inner_seen op.now)) result (plain_meant (context_in context.now) place (inner_seen op.now)) }
{
    let names = context.names();
    let base = resolve_base(&names, place, op.code, op.base)?;
    match find_entry(&names, op.code, op.address) {
        Some(at) => Ok(hold_entry(context, op.code, base, at)),
        None => Ok(Meaning::Stands {
            address: address_in(context, place, op.code, op.bytes),
            base,
        }),
    }
}

/// The operation that holds the entry at a place, in place of one of this code.
fn hold_entry(context: &ExprContext, code: u8, base: Option<Base>, at: u32) -> Meaning
    requires sound { IsSoundContext (context_in context.now) }
    requires inside { at + 8 ≤ length context.now.sections.now.addr.now }
    ensures { (op : APlainOp) → with_meaning op result ≡ held (context_in context.now) code base at }
{
    let holding = holding_code(code);
    Meaning::Holds {
        code: holding,
        bytes: coded_bytes(holding, cut(context.sections.addr, at as usize, 8)),
        address: entry_address(context, code, at),
        base,
    }
}

/// A code and the eight bytes behind it.
fn coded_bytes(code: u8, operand: &[u8]) -> [u8; 9]
    requires { length operand.now ≡ 8 }
    ensures { result ≡ code ∷ operand.now }
{
    let mut bytes = [code; 9];
    bytes[1..].copy_from_slice(operand);
    bytes
}

/// The entry of the base type that an operation names, where it names one. `place` is that of its first byte.
fn resolve_base(
    names: &ExprNames,
    place: u64,
    code: u8,
    base: Option<Base>,
) -> Result<Option<Base>, Fault>
    requires { AreInOrder (names_in names.now).bases }
    ensures { Finds (λ meant. meant) result (base_meant (names_in names.now) place code base) }
{
    let Some(base) = base else {
        return Ok(None);
    };
    match find_named(names, code, base) {
        Some(meant) => Ok(Some(meant)),
        None => Err(fault_at(names, Kind::BadOperandType, place)),
    }
}

/// The base type that an operation of this code names, by its entry.
fn find_named(names: &ExprNames, code: u8, base: Base) -> Option<Base>
    requires { AreInOrder (names_in names.now).bases }
    ensures { result ≡ base_named (names_in names.now) code base }
{
    match base {
        Base::Generic if takes_generic(code) => Some(Base::Generic),
        Base::Generic => None,
        Base::Entry(at) => {
            let place = u64::from(names.start) + u64::from(at);
            match find_base(names.bases, names.unit, place) {
                Some(entry) => Some(Base::Entry(entry)),
                None => None,
            }
        }
    }
}

/// Whether the generic type may be named: in conversions alone.
fn takes_generic(code: u8) -> bool
    ensures { result ≡ is_conversion code }
{
    code == DW_OP_convert || code == DW_OP_reinterpret
}

/// The address that an operation has, where it has one. `place` is that of its first byte.
fn address_in(context: &ExprContext, place: u64, code: u8, bytes: &[u8]) -> Option<Place>
    requires sound { IsSoundContext (context_in context.now) }
    requires operand { HoldsOperand code bytes.now }
    requires inside { place + length bytes.now < 2 ^ 32 }
    ensures { result ≡ address_meant (context_in context.now) place (bare code bytes.now) }
{
    if has_address(context, place, code) {
        Some(operand_address(context, place, bytes))
    } else {
        None
    }
}

/// Whether the operand of an operation is an address: of `DW_OP_addr` always, and of `DW_OP_const8u` where a relocation
/// stands at it.
fn has_address(context: &ExprContext, place: u64, code: u8) -> bool
    requires sound { IsSoundContext (context_in context.now) }
    requires inside { place < 2 ^ 32 }
    ensures { result ≡ holds_address (context_in context.now) place (bare code []) }
{
    code == DW_OP_addr || (code == DW_OP_const8u && is_relocated(context.relocs, place + 1))
}

/// What the number in the eight bytes behind the code means, and where that went.
fn operand_address(context: &ExprContext, place: u64, bytes: &[u8]) -> Place
    requires sound { IsSoundContext (context_in context.now) }
    requires operand { 9 ≤ length bytes.now }
    requires inside { place + length bytes.now < 2 ^ 32 }
    ensures { result ≡ operand_place (context_in context.now) place (bare 0 bytes.now) }
{
    let stored = LittleEndian::read_u64(&bytes[1..]);
    let at = resolve(context.relocs, context.image, place as u32 + 1, stored);
    place_of(context.map, at)
}
