//! The operations that append a row (DWARF 4, section 6.2.5).

ghost use Rattle.std.specs.Prelude.{◌≡◌, ◌-ℤ◌, ◌++◌, ◌∷◌, [], not, pos, if◌then◌else◌, Some, None, OnOk};
ghost use Rattle.ds_base.specs.DwarfNumbers.{DW_LNE_set_discriminator, DW_LNS_extended_op, DW_LNS_negate_stmt};
ghost use Rattle.ds_base.specs.Leb.{uleb};
ghost use Rattle.dwarf_types.specs.Abbreviations.{same_flag};
ghost use Rattle.dwarf_types.specs.LineProgram.{advance_line, advance_pc, append_row as row_appended, extended, is_special, row_bytes, set_discriminator, set_number, special_opcode, when};

use appending::{append_sleb, append_uleb};
use ds_base::dwarf::{
    DW_LNE_set_discriminator, DW_LNS_advance_line, DW_LNS_advance_pc, DW_LNS_copy,
    DW_LNS_extended_op, DW_LNS_negate_stmt, DW_LNS_set_basic_block, DW_LNS_set_column,
    DW_LNS_set_epilogue_begin, DW_LNS_set_file, DW_LNS_set_isa, DW_LNS_set_prologue_end, LINE_BASE,
    LINE_RANGE, OPCODE_BASE,
};
use ds_base::{Bytes, NoMemory, uleb_len};
use dwarf_types::Row;

/// The greatest step of the address that a special operation makes: 13 and 14 times the step are a byte.
const SPECIAL_STEP: u64 = 17;

/// How many lines back a special operation goes at most: the other number of `line_base`, a signed byte.
const LINES_BACK: u64 = 256 - LINE_BASE as u64;

/// Puts last what appends a row, by the registers before it.
pub(crate) fn append_row(out: &mut Bytes, before: &Row, row: &Row) -> Result<(), NoMemory>
    ensures { OnOk result (out.new ≡ out.old ++ row_bytes before.now row.now) }
{
    append_number(out, DW_LNS_set_file, before.file, row.file)?;
    append_number(out, DW_LNS_set_column, before.column, row.column)?;
    append_discriminator(out, row.discriminator)?;
    append_number(out, DW_LNS_set_isa, before.isa, row.isa)?;
    append_stmt(out, before.is_stmt, row.is_stmt)?;
    append_when(out, row.basic_block, DW_LNS_set_basic_block)?;
    append_when(out, row.prologue_end, DW_LNS_set_prologue_end)?;
    append_when(out, row.epilogue_begin, DW_LNS_set_epilogue_begin)?;
    append_moved(out, before, row)?;
    Ok(())
}

/// Puts last what sets a register, where it has another number.
fn append_number(out: &mut Bytes, code: u8, before: u64, n: u64) -> Result<(), NoMemory>
    ensures { OnOk result (out.new ≡ out.old ++ set_number code before n) }
{
    if n == before {
        return Ok(());
    }
    out.push(code)?;
    append_uleb(out, n)?;
    Ok(())
}

/// Puts last what sets the discriminator, which the row before left at 0.
fn append_discriminator(out: &mut Bytes, n: u64) -> Result<(), NoMemory>
    ensures { OnOk result (out.new ≡ out.old ++ set_discriminator n) }
{
    if n == 0 {
        return Ok(());
    }
    append_discriminator_of(out, n)?;
    Ok(())
}

/// Puts last the operation that sets the discriminator.
fn append_discriminator_of(out: &mut Bytes, n: u64) -> Result<(), NoMemory>
    ensures { OnOk result (out.new ≡ out.old ++ extended (DW_LNE_set_discriminator ∷ uleb n)) }
{
    append_extended(out, 1 + uleb_len(n), DW_LNE_set_discriminator)?;
    append_uleb(out, n)?;
    Ok(())
}

/// Puts last the beginning of an extended operation: how many bytes its code and operands have, and the code.
pub(crate) fn append_extended(out: &mut Bytes, len: u64, code: u8) -> Result<(), NoMemory>
    ensures { OnOk result (out.new ≡ out.old ++ DW_LNS_extended_op ∷ (uleb len ++ (code ∷ []))) }
{
    out.push(DW_LNS_extended_op)?;
    append_uleb(out, len)?;
    out.push(code)?;
    Ok(())
}

/// Puts last what turns `is_stmt`, where it differs.
fn append_stmt(out: &mut Bytes, before: bool, is_stmt: bool) -> Result<(), NoMemory>
    ensures { OnOk result (out.new ≡ out.old ++ when (not (same_flag before is_stmt)) DW_LNS_negate_stmt) }
{
    if is_stmt == before {
        return Ok(());
    }
    out.push(DW_LNS_negate_stmt)?;
    Ok(())
}

/// Puts an operation without operands last, where it is wanted.
fn append_when(out: &mut Bytes, wanted: bool, code: u8) -> Result<(), NoMemory>
    ensures { OnOk result (out.new ≡ out.old ++ when wanted code) }
{
    if !wanted {
        return Ok(());
    }
    out.push(code)?;
    Ok(())
}

/// Puts last what moves address and line and appends the row.
fn append_moved(out: &mut Bytes, before: &Row, row: &Row) -> Result<(), NoMemory>
    ensures { OnOk result (out.new ≡ out.old ++ row_appended before.now row.now) }
{
    if let Some(opcode) = special_of(before, row) {
        out.push(opcode)?;
        return Ok(());
    }
    append_line(out, before.line, row.line)?;
    append_step(out, row.address.saturating_sub(before.address))?;
    out.push(DW_LNS_copy)?;
    Ok(())
}

/// The special operation that appends the row, if one does.
fn special_of(before: &Row, row: &Row) -> Option<u8>
    ensures { result ≡ (if is_special before.now row.now then Some (special_opcode before.now row.now) else None) }
{
    let step = row.address.saturating_sub(before.address);
    // A special operation counts the steps of the line from the least one.
    let line = u64::from(row.line) + LINES_BACK;
    let line_before = u64::from(before.line);
    if line < line_before || line >= line_before + u64::from(LINE_RANGE) || step > SPECIAL_STEP {
        return None;
    }
    let opcode = line - line_before + u64::from(LINE_RANGE) * step + u64::from(OPCODE_BASE);
    u8::try_from(opcode).ok()
}

/// Puts last what moves the line.
fn append_line(out: &mut Bytes, before: u32, line: u32) -> Result<(), NoMemory>
    ensures { OnOk result (out.new ≡ out.old ++ advance_line before line) }
{
    if line == before {
        return Ok(());
    }
    out.push(DW_LNS_advance_line)?;
    append_sleb(out, line_step(before, line))?;
    Ok(())
}

/// How far the line moves.
fn line_step(before: u32, line: u32) -> i64
    ensures { result ≡ pos line -ℤ pos before }
{
    i64::from(line) - i64::from(before)
}

/// Puts last what moves the address by a step.
pub(crate) fn append_step(out: &mut Bytes, step: u64) -> Result<(), NoMemory>
    ensures { OnOk result (out.new ≡ out.old ++ advance_pc step) }
{
    if step == 0 {
        return Ok(());
    }
    out.push(DW_LNS_advance_pc)?;
    append_uleb(out, step)?;
    Ok(())
}
