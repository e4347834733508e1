//! The operations of line programs, as two tables from their codes (DWARF 4, section 7.21, figures 37 and 38; DWARF 5,
//! section 7.22, tables 7.25 and 7.26).

ghost use Rattle.std.specs.Prelude.{◌≡◌};
ghost use Rattle.line_read.specs.Codes.{standard_of, extended_of, file_definition_of};

use crate::header::FORMATS_SINCE;
use ds_base::dwarf::{
    DW_LNE_define_file, DW_LNE_end_sequence, DW_LNE_set_address, DW_LNE_set_discriminator,
    DW_LNS_advance_line, DW_LNS_advance_pc, DW_LNS_const_add_pc, DW_LNS_copy,
    DW_LNS_fixed_advance_pc, DW_LNS_negate_stmt, DW_LNS_set_basic_block, DW_LNS_set_column,
    DW_LNS_set_epilogue_begin, DW_LNS_set_file, DW_LNS_set_isa, DW_LNS_set_prologue_end,
};

/// The standard operations (DWARF 4, section 6.2.5.2).
#[derive(Clone, Copy)]
pub(crate) enum StandardOp {
    Copy,
    AdvancePc,
    AdvanceLine,
    SetFile,
    SetColumn,
    NegateStmt,
    SetBasicBlock,
    ConstAddPc,
    FixedAdvancePc,
    SetPrologueEnd,
    SetEpilogueBegin,
    SetIsa,
}

/// The extended operations (DWARF 4, section 6.2.5.3).
#[derive(Clone, Copy)]
pub(crate) enum ExtendedOp {
    EndSequence,
    SetAddress,
    DefineFile,
    SetDiscriminator,
}

/// The standard operation of a code, or `None` where the standard has none.
#[tactic(auto, unfolding(crate::specs::Codes::standard_of))]
pub(crate) fn standard_op(code: u8) -> Option<StandardOp>
    ensures { result ≡ standard_of code }
{
    match code {
        DW_LNS_copy => Some(StandardOp::Copy),
        DW_LNS_advance_pc => Some(StandardOp::AdvancePc),
        DW_LNS_advance_line => Some(StandardOp::AdvanceLine),
        DW_LNS_set_file => Some(StandardOp::SetFile),
        DW_LNS_set_column => Some(StandardOp::SetColumn),
        DW_LNS_negate_stmt => Some(StandardOp::NegateStmt),
        DW_LNS_set_basic_block => Some(StandardOp::SetBasicBlock),
        DW_LNS_const_add_pc => Some(StandardOp::ConstAddPc),
        DW_LNS_fixed_advance_pc => Some(StandardOp::FixedAdvancePc),
        DW_LNS_set_prologue_end => Some(StandardOp::SetPrologueEnd),
        DW_LNS_set_epilogue_begin => Some(StandardOp::SetEpilogueBegin),
        DW_LNS_set_isa => Some(StandardOp::SetIsa),
        _ => None,
    }
}

/// The extended operation of a code in tables of a version, or `None` where the standard has none. Version 5 has no
/// operation that defines a file.
#[tactic(auto, unfolding(crate::specs::Codes::extended_of))]
pub(crate) fn extended_op(version: u16, code: u8) -> Option<ExtendedOp>
    ensures { result ≡ extended_of version code }
{
    match code {
        DW_LNE_end_sequence => Some(ExtendedOp::EndSequence),
        DW_LNE_set_address => Some(ExtendedOp::SetAddress),
        DW_LNE_define_file => file_definition(version),
        DW_LNE_set_discriminator => Some(ExtendedOp::SetDiscriminator),
        _ => None,
    }
}

/// The operation that defines a file, which version 5 does not have.
fn file_definition(version: u16) -> Option<ExtendedOp>
    ensures { result ≡ file_definition_of version }
{
    if version < FORMATS_SINCE {
        Some(ExtendedOp::DefineFile)
    } else {
        None
    }
}
