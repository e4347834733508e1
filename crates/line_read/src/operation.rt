//! One operation of a line program, from its bytes.

ghost use Rattle.std.specs.Prelude.{◌≡◌, ◌<◌, ◌^◌, length, Some, IfOk};
ghost use Rattle.ds_base.specs.Reading.{Finds, Reads};
ghost use Rattle.ds_base.specs.Spot.{IsSmall};
ghost use Rattle.macho_read.specs.Sound.{IsSound as IsSoundImage};
ghost use Rattle.reloc_table.specs.Sound.{IsSound};
ghost use Rattle.line_read.specs.Bounds.{HasLengths, IsInside};
ghost use Rattle.line_read.specs.Codes.{standard_of};
ghost use Rattle.line_read.specs.Operation.{standard_at, ulebs_at, operand_count, low_at, defined_at, operands_at, filled_at, body_at, fault_inside, part_at, extended_at, op_at};

use crate::codes::{ExtendedOp, StandardOp, extended_op, standard_op};
use crate::header::LineHeader;
use ds_base::dwarf::DW_LNS_extended_op;
use ds_base::{Cursor, Fault, Kind, Part};
use dwarf_types::{Addr, FileNameRef};
use macho_read::Image;
use reloc_table::{Relocs, resolve};
use std::marker::Model;

/// A file that an operation defines, where it stands.
#[derive(Drop)]
pub(crate) struct DefinedFile<'a> {
    pub(crate) file: FileNameRef<'a>,
}

impl<'a> Model for DefinedFile<'a> {
    ghost use Rattle.dwarf_types.specs.declared.lines.FileName.{FileName};
    ghost use Rattle.dwarf_types.specs.SeenLines.{file_seen};

    ghost Value = { FileName };

    ghost view = { λ d. file_seen d.file };
}

/// An operation of a line program (DWARF 4 and DWARF 5, section 6.2.5), with its operands.
#[derive(Drop)]
pub(crate) enum LineOp<'a> {
    /// A special operation, by its code less opcode_base.
    Special(u8),
    Copy,
    AdvancePc(u64),
    AdvanceLine(i64),
    SetFile(u64),
    SetColumn(u64),
    NegateStmt,
    SetBasicBlock,
    ConstAddPc,
    FixedAdvancePc(u16),
    SetPrologueEnd,
    SetEpilogueBegin,
    SetIsa(u64),
    EndSequence,
    SetAddress(Addr),
    DefineFile(DefinedFile<'a>),
    SetDiscriminator(u64),
    /// One that the standard does not have, or not in this version, which is passed over.
    Unknown,
}

/// The next operation. `bytes` is the whole of `__debug_line`, which the cursor reads.
#[tactic(auto, unfolding(crate::specs::Operation::op_at))]
pub(crate) fn read_op<'a>(
    header: &LineHeader,
    bytes: &'a [u8],
    relocs: &Relocs,
    image: &Image,
    cursor: &mut Cursor<'a>,
) -> Result<LineOp<'a>, Fault>
    requires inside { IsInside bytes.now cursor.old }
    requires small { length bytes.now < 2 ^ 32 }
    requires sound { IsSound image.now relocs.now }
    requires sound_image { IsSoundImage image.now }
    requires lengths { HasLengths header.now }
    ensures { Reads (λ op. op) result cursor.new (op_at header.now image.now relocs.now cursor.old) }
{
    let first = cursor.fork();
    let code = cursor.u8()?;
    if code >= header.opcode_base {
        return Ok(LineOp::Special(code - header.opcode_base));
    }
    if code == DW_LNS_extended_op {
        return read_extended(header, bytes, relocs, image, &first, cursor);
    }
    read_low(cursor, header, code)
}

/// The operation of a code below opcode_base, behind the code. One that is not known is passed over.
#[tactic(auto, unfolding(crate::specs::Operation::low_at))]
fn read_low<'a>(cursor: &mut Cursor<'a>, header: &LineHeader, code: u8) -> Result<LineOp<'a>, Fault>
    requires lengths { HasLengths header.now }
    requires code { (0 < code) × (code < header.now.opcode_base) }
    ensures { Reads (λ op. op) result cursor.new (low_at header.now code (standard_of code) cursor.old) }
{
    match standard_op(code) {
        Some(op) => read_standard(op, cursor),
        None => {
            skip_ulebs(cursor, operands_of(header, code))?;
            Ok(LineOp::Unknown)
        }
    }
}

/// How many operands an operation has that is not known.
fn operands_of(header: &LineHeader, code: u8) -> u8
    requires lengths { HasLengths header.now }
    requires code { (0 < code) × (code < header.now.opcode_base) }
    ensures { result ≡ operand_count header.now code }
{
    header.standard_opcode_lengths.as_slice()[usize::from(code) - 1]
}

/// Passes over so many LEB numbers.
fn skip_ulebs(cursor: &mut Cursor, count: u8) -> Result<(), Fault>
    ensures { Reads (λ _. tt) result cursor.new (ulebs_at count cursor.old) }
{
    for _ in 0..count {
        cursor.uleb()?;
    }
    Ok(())
}

/// A standard operation, behind its code.
#[tactic(auto, unfolding(crate::specs::Operation::standard_at))]
fn read_standard<'a>(op: StandardOp, cursor: &mut Cursor<'a>) -> Result<LineOp<'a>, Fault>
    ensures { Reads (λ op. op) result cursor.new (standard_at op cursor.old) }
{
    match op {
        StandardOp::Copy => Ok(LineOp::Copy),
        StandardOp::AdvancePc => Ok(LineOp::AdvancePc(cursor.uleb()?)),
        StandardOp::AdvanceLine => Ok(LineOp::AdvanceLine(cursor.sleb()?)),
        StandardOp::SetFile => Ok(LineOp::SetFile(cursor.uleb()?)),
        StandardOp::SetColumn => Ok(LineOp::SetColumn(cursor.uleb()?)),
        StandardOp::NegateStmt => Ok(LineOp::NegateStmt),
        StandardOp::SetBasicBlock => Ok(LineOp::SetBasicBlock),
        StandardOp::ConstAddPc => Ok(LineOp::ConstAddPc),
        StandardOp::FixedAdvancePc => Ok(LineOp::FixedAdvancePc(cursor.u16()?)),
        StandardOp::SetPrologueEnd => Ok(LineOp::SetPrologueEnd),
        StandardOp::SetEpilogueBegin => Ok(LineOp::SetEpilogueBegin),
        StandardOp::SetIsa => Ok(LineOp::SetIsa(cursor.uleb()?)),
    }
}

/// The extended operation that begins at `first`, behind its code: the length of the body, and the body.
#[tactic(auto, unfolding(crate::specs::Operation::extended_at))]
fn read_extended<'a>(
    header: &LineHeader,
    bytes: &'a [u8],
    relocs: &Relocs,
    image: &Image,
    first: &Cursor,
    cursor: &mut Cursor,
) -> Result<LineOp<'a>, Fault>
    requires inside { IsInside bytes.now cursor.old }
    requires small { length bytes.now < 2 ^ 32 }
    requires sound { IsSound image.now relocs.now }
    requires sound_image { IsSoundImage image.now }
    ensures { Reads (λ op. op) result cursor.new (extended_at header.now image.now relocs.now first.now cursor.old) }
{
    let len = cursor.uleb()?;
    if len == 0 {
        return Err(first.fault(Kind::BadLineOp));
    }
    let body = read_part(bytes, cursor, len)?;
    match read_body(header, relocs, image, first, body) {
        Ok(op) => Ok(op),
        Err(fault) => Err(fault_in_body(first, fault)),
    }
}

/// The next `len` bytes, as a cursor that ends with them.
#[tactic(auto, unfolding(crate::specs::Operation::part_at, ds_base::specs::Reading::bytes_at))]
fn read_part<'a>(bytes: &'a [u8], cursor: &mut Cursor, len: u64) -> Result<Cursor<'a>, Fault>
    requires inside { IsInside bytes.now cursor.old }
    requires small { length bytes.now < 2 ^ 32 }
    ensures read { Reads (λ part. part) result cursor.new (part_at len cursor.old) }
    ensures small { IfOk result IsSmall }
{
    let place = cursor.place();
    cursor.skip(len)?;
    Ok(Cursor::new(bytes, Part::Line, place, cursor.place()))
}

/// The fault of a body, which what does not end in it does not fill.
fn fault_in_body(first: &Cursor, fault: Fault) -> Fault
    ensures { result ≡ fault_inside first.now fault.kind fault }
{
    match fault.kind {
        Kind::Truncated => first.fault(Kind::BadLineOp),
        _ => fault,
    }
}

/// The extended operation of a body, with which the cursor ends.
#[tactic(auto, unfolding(crate::specs::Operation::body_at, crate::specs::Operation::filled_at))]
fn read_body<'a>(
    header: &LineHeader,
    relocs: &Relocs,
    image: &Image,
    first: &Cursor,
    body: Cursor<'a>,
) -> Result<LineOp<'a>, Fault>
    requires small { IsSmall body }
    requires sound { IsSound image.now relocs.now }
    requires sound_image { IsSoundImage image.now }
    ensures { Finds (λ op. op) result (body_at header.now image.now relocs.now first.now body.entry) }
{
    let mut body = body;
    let code = body.u8()?;
    match extended_op(header.version, code) {
        Some(op) => read_filled(relocs, image, first, op, body),
        None => Ok(LineOp::Unknown),
    }
}

/// A known extended operation, behind its code. Its operands fill the body.
#[tactic(auto, unfolding(crate::specs::Operation::filled_at))]
fn read_filled<'a>(
    relocs: &Relocs,
    image: &Image,
    first: &Cursor,
    op: ExtendedOp,
    body: Cursor<'a>,
) -> Result<LineOp<'a>, Fault>
    requires small { IsSmall body }
    requires sound { IsSound image.now relocs.now }
    requires sound_image { IsSoundImage image.now }
    ensures { Finds (λ op. op) result (filled_at image.now relocs.now first.now (Some op) body.entry) }
{
    let mut body = body;
    let op = read_operands(relocs, image, first, op, &mut body)?;
    if body.left() != 0 {
        return Err(first.fault(Kind::BadLineOp));
    }
    Ok(op)
}

/// The operands of a known extended operation.
#[tactic(auto, unfolding(crate::specs::Operation::operands_at))]
fn read_operands<'a>(
    relocs: &Relocs,
    image: &Image,
    first: &Cursor,
    op: ExtendedOp,
    body: &mut Cursor<'a>,
) -> Result<LineOp<'a>, Fault>
    requires small { IsSmall body.old }
    requires sound { IsSound image.now relocs.now }
    requires sound_image { IsSoundImage image.now }
    ensures { Reads (λ op. op) result body.new (operands_at image.now relocs.now first.now op body.old) }
{
    match op {
        ExtendedOp::EndSequence => Ok(LineOp::EndSequence),
        ExtendedOp::SetAddress => {
            let place = body.place() as u32;
            let stored = body.u64()?;
            Ok(LineOp::SetAddress(resolve(relocs, image, place, stored)))
        }
        ExtendedOp::DefineFile => Ok(LineOp::DefineFile(read_defined(first, body)?)),
        ExtendedOp::SetDiscriminator => Ok(LineOp::SetDiscriminator(body.uleb()?)),
    }
}

/// The file that an operation defines.
#[tactic(auto, unfolding(crate::specs::Operation::defined_at))]
fn read_defined<'a>(first: &Cursor, body: &mut Cursor<'a>) -> Result<DefinedFile<'a>, Fault>
    ensures { Reads (λ file. file) result body.new (defined_at first.now body.old) }
{
    let name = body.text()?;
    if name.is_empty() {
        return Err(first.fault(Kind::BadLineOp));
    }
    let dir = body.uleb()?;
    let time = body.uleb()?;
    let size = body.uleb()?;
    let file = FileNameRef {
        name,
        dir,
        time,
        size,
        digest: None,
    };
    Ok(DefinedFile { file })
}
