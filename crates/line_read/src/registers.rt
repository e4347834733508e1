//! The registers of the line state machine, and what each operation does to them.

ghost use Rattle.std.specs.Prelude.{◌≡◌, ◌<◌};
ghost use Rattle.line_read.specs.Registers;

use crate::header::LineHeader;
use crate::operation::LineOp;
use dwarf_types::{Addr, RawRow, Row};

/// The registers "at the beginning of each sequence" (DWARF 4, section 6.2.2).
pub(crate) fn initial(header: &LineHeader) -> RawRow
    ensures { result ≡ Registers.initial header.now }
{
    RawRow {
        at: Addr::Fixed(0),
        row: Row {
            address: 0,
            file: 1,
            line: 1,
            column: 0,
            discriminator: 0,
            isa: 0,
            is_stmt: header.default_is_stmt,
            basic_block: false,
            prologue_end: false,
            epilogue_begin: false,
        },
    }
}

/// What an operation does to the registers, before it appends a row.
#[tactic(auto, unfolding(crate::specs::Registers::changed))]
pub(crate) fn changed(header: &LineHeader, op: &LineOp, registers: RawRow) -> RawRow
    requires { 0 < header.now.line_range }
    ensures { result ≡ Registers.changed header.now op.now registers }
{
    let RawRow { at, row } = registers;
    match op {
        LineOp::Special(adjusted) => special(header, *adjusted, registers),
        LineOp::AdvancePc(n) => RawRow {
            at: instructions_on(header, *n, at),
            row,
        },
        LineOp::AdvanceLine(step) => with_line(registers, lines_on(*step, row.line)),
        LineOp::SetFile(n) => RawRow {
            at,
            row: Row { file: *n, ..row },
        },
        LineOp::SetColumn(n) => RawRow {
            at,
            row: Row { column: *n, ..row },
        },
        LineOp::NegateStmt => RawRow {
            at,
            row: Row {
                is_stmt: !row.is_stmt,
                ..row
            },
        },
        LineOp::SetBasicBlock => RawRow {
            at,
            row: Row {
                basic_block: true,
                ..row
            },
        },
        LineOp::ConstAddPc => {
            let last = 255 - header.opcode_base;
            let n = u64::from(last / header.line_range);
            RawRow {
                at: instructions_on(header, n, at),
                row,
            }
        }
        LineOp::FixedAdvancePc(n) => RawRow {
            at: at.plus(u64::from(*n)),
            row,
        },
        LineOp::SetPrologueEnd => RawRow {
            at,
            row: Row {
                prologue_end: true,
                ..row
            },
        },
        LineOp::SetEpilogueBegin => RawRow {
            at,
            row: Row {
                epilogue_begin: true,
                ..row
            },
        },
        LineOp::SetIsa(n) => RawRow {
            at,
            row: Row { isa: *n, ..row },
        },
        LineOp::SetAddress(at) => RawRow { at: *at, row },
        LineOp::SetDiscriminator(n) => RawRow {
            at,
            row: Row {
                discriminator: *n,
                ..row
            },
        },
        LineOp::Copy | LineOp::EndSequence | LineOp::DefineFile(_) | LineOp::Unknown => registers,
    }
}

/// The registers behind a row (DWARF 4, section 6.2.5.2, DW_LNS_copy).
pub(crate) fn cleared(registers: RawRow) -> RawRow
    ensures { result ≡ Registers.cleared registers }
{
    RawRow {
        at: registers.at,
        row: Row {
            discriminator: 0,
            basic_block: false,
            prologue_end: false,
            epilogue_begin: false,
            ..registers.row
        },
    }
}

/// What a special operation does, by its code less opcode_base (DWARF 4, section 6.2.5.1).
fn special(header: &LineHeader, adjusted: u8, registers: RawRow) -> RawRow
    requires { 0 < header.now.line_range }
    ensures { result ≡ Registers.special header.now adjusted registers }
{
    let instructions = u64::from(adjusted / header.line_range);
    let lines = i64::from(header.line_base) + i64::from(adjusted % header.line_range);
    RawRow {
        at: instructions_on(header, instructions, registers.at),
        row: Row {
            line: lines_on(lines, registers.row.line),
            ..registers.row
        },
    }
}

/// An address so many instructions on, each of the shortest length.
#[tactic(auto, using(crate::proofs::Steps::plus_product))]
fn instructions_on(header: &LineHeader, n: u64, at: Addr) -> Addr
    ensures { result ≡ Registers.instructions_on header.now n at }
{
    at.plus(u64::from(header.minimum_instruction_length).wrapping_mul(n))
}

/// A line so many lines on, modulo 2^32.
#[tactic(auto, using(crate::proofs::Steps::lines_on_is))]
fn lines_on(step: i64, line: u32) -> u32
    ensures { result ≡ Registers.lines_on step line }
{
    line.wrapping_add((step.cast_unsigned() % (1 << 32)) as u32)
}

/// The registers at another line.
fn with_line(registers: RawRow, line: u32) -> RawRow
    ensures { result ≡ record registers { row = record registers.row { line = line } } }
{
    RawRow {
        at: registers.at,
        row: Row {
            line,
            ..registers.row
        },
    }
}
