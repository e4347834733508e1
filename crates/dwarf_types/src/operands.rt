//! The operands of operations, as one table from their numbers (DWARF 5, section 7.7.1, table 7.9).

ghost use Rattle.std.specs.Prelude.{◌≡◌};
ghost use Rattle.dwarf_types.specs.Operations.{has_no_operands, operands_of};

use ds_base::dwarf::{
    DW_OP_GNU_entry_value, DW_OP_GNU_push_tls_address, DW_OP_abs, DW_OP_addr, DW_OP_addrx,
    DW_OP_bit_piece, DW_OP_bra, DW_OP_breg0, DW_OP_breg31, DW_OP_bregx, DW_OP_call_frame_cfa,
    DW_OP_call_ref, DW_OP_call2, DW_OP_call4, DW_OP_const_type, DW_OP_const1s, DW_OP_const1u,
    DW_OP_const2s, DW_OP_const2u, DW_OP_const4s, DW_OP_const4u, DW_OP_const8s, DW_OP_const8u,
    DW_OP_consts, DW_OP_constu, DW_OP_constx, DW_OP_convert, DW_OP_deref, DW_OP_deref_size,
    DW_OP_deref_type, DW_OP_drop, DW_OP_dup, DW_OP_entry_value, DW_OP_eq, DW_OP_fbreg,
    DW_OP_form_tls_address, DW_OP_implicit_pointer, DW_OP_implicit_value, DW_OP_lit0, DW_OP_ne,
    DW_OP_nop, DW_OP_over, DW_OP_pick, DW_OP_piece, DW_OP_plus, DW_OP_plus_uconst,
    DW_OP_push_object_address, DW_OP_reg31, DW_OP_regval_type, DW_OP_regx, DW_OP_reinterpret,
    DW_OP_rot, DW_OP_shl, DW_OP_skip, DW_OP_stack_value, DW_OP_swap, DW_OP_xderef,
    DW_OP_xderef_size, DW_OP_xderef_type, DW_OP_xor,
};

/// What stands behind the code of an operation.
#[derive(Clone, Copy)]
pub enum Operands {
    /// Nothing.
    Empty,
    /// An address of eight bytes.
    Address,
    /// A number in so many bytes.
    Fixed(u64),
    /// A LEB number without a sign, here and below (DWARF 4, section 7.6).
    Uleb,
    /// A LEB number with a sign.
    Sleb,
    /// A LEB number without a sign, and one with a sign.
    UlebSleb,
    /// Two LEB numbers without a sign.
    UlebUleb,
    /// A length as a LEB number, and so many bytes.
    Block,
    /// A length as a LEB number, and an expression in so many bytes.
    Expression,
    /// A base type as a LEB number, a length of one byte, and so many bytes.
    BaseBlock,
    /// A LEB number, and a base type as a LEB number.
    UlebBase,
    /// A byte, and a base type as a LEB number.
    ByteBase,
    /// A base type as a LEB number.
    Base,
    /// The index of an entry of `__debug_addr` as a LEB number, in units of version 5.
    Index,
    /// Those of an operation that this project does not read.
    Outside,
}

/// What the operands of an operation name.
#[derive(Clone, Copy)]
pub enum Named {
    Nothing,
    /// An address, by its number as stored.
    Address(u64),
    /// A base type, by its number as stored: its place in the unit, or 0 for the generic type.
    BaseType(u64),
    /// An entry of `__debug_addr`, by its index.
    Index(u64),
}

/// The operands of an operation by its code, or `None` where there is no such operation.
///
/// Sections: DWARF 4, section 7.7.1 and figure 24, for the operations up to `DW_OP_stack_value`;
/// DWARF 5, section 7.7.1 and table 7.9, for those from `DW_OP_implicit_pointer` on; GNU's
/// `DW_OP_GNU_push_tls_address` and `DW_OP_GNU_entry_value`. Calls, pointers to what has no place
/// and typed dereferences in other address spaces are outside of this project's profile. The operations
/// that name an entry of `__debug_addr` are there in units of version 5 alone.
#[tactic(auto, unfolding(crate::specs::Operations::operands_of))]
pub fn operands_after(code: u8) -> Option<Operands>
    ensures { result ≡ operands_of code }
{
    if has_none(code) {
        return Some(Operands::Empty);
    }
    match code {
        DW_OP_addr => Some(Operands::Address),
        DW_OP_const1u | DW_OP_const1s | DW_OP_pick => Some(Operands::Fixed(1)),
        DW_OP_deref_size | DW_OP_xderef_size => Some(Operands::Fixed(1)),
        DW_OP_const2u | DW_OP_const2s => Some(Operands::Fixed(2)),
        DW_OP_skip | DW_OP_bra => Some(Operands::Fixed(2)),
        DW_OP_const4u | DW_OP_const4s => Some(Operands::Fixed(4)),
        DW_OP_const8u | DW_OP_const8s => Some(Operands::Fixed(8)),
        DW_OP_constu | DW_OP_plus_uconst => Some(Operands::Uleb),
        DW_OP_regx | DW_OP_piece => Some(Operands::Uleb),
        DW_OP_consts | DW_OP_fbreg => Some(Operands::Sleb),
        DW_OP_breg0..=DW_OP_breg31 => Some(Operands::Sleb),
        DW_OP_bregx => Some(Operands::UlebSleb),
        DW_OP_bit_piece => Some(Operands::UlebUleb),
        DW_OP_implicit_value => Some(Operands::Block),
        DW_OP_entry_value | DW_OP_GNU_entry_value => Some(Operands::Expression),
        DW_OP_const_type => Some(Operands::BaseBlock),
        DW_OP_regval_type => Some(Operands::UlebBase),
        DW_OP_deref_type => Some(Operands::ByteBase),
        DW_OP_convert | DW_OP_reinterpret => Some(Operands::Base),
        DW_OP_call2 | DW_OP_call4 | DW_OP_call_ref => Some(Operands::Outside),
        DW_OP_implicit_pointer | DW_OP_xderef_type => Some(Operands::Outside),
        DW_OP_addrx | DW_OP_constx => Some(Operands::Index),
        _ => None,
    }
}

/// Whether an operation is its code alone.
#[tactic(auto, unfolding(crate::specs::Operations::has_no_operands))]
fn has_none(code: u8) -> bool
    ensures { result ≡ has_no_operands code }
{
    match code {
        DW_OP_abs..=DW_OP_plus => true,
        DW_OP_shl..=DW_OP_xor => true,
        DW_OP_eq..=DW_OP_ne => true,
        DW_OP_lit0..=DW_OP_reg31 => true,
        DW_OP_deref | DW_OP_dup | DW_OP_drop | DW_OP_over => true,
        DW_OP_swap | DW_OP_rot | DW_OP_xderef => true,
        DW_OP_nop | DW_OP_push_object_address | DW_OP_form_tls_address => true,
        DW_OP_call_frame_cfa | DW_OP_stack_value | DW_OP_GNU_push_tls_address => true,
        _ => false,
    }
}
