//! Line programs (DWARF 4, section 6.2.5), sequence by sequence.

ghost use Rattle.std.specs.Prelude.{◌≡◌, ◌++◌, [], OnOk};
ghost use Rattle.std.specs.List.{flat_map};
ghost use Rattle.dwarf_types.specs.LineProgram.{first_address, registers_after, registers_at, rows_bytes, sequence_bytes, set_address};
ghost use Rattle.dwarf_types.specs.SeenLines.{rows_seen, sequence_seen};

use crate::row_ops::{append_extended, append_row, append_step};
use appending::append_u64;
use ds_base::dwarf::{ADDRESS_SIZE, DW_LNE_end_sequence, DW_LNE_set_address};
use ds_base::{Bytes, NoMemory};
use dwarf_types::{Row, Rows, SequenceRef, Sequences};

/// How many bytes `DW_LNE_set_address` has: its code and an address.
const SET_ADDRESS_SIZE: u64 = 1 + ADDRESS_SIZE as u64;

/// How many bytes `DW_LNE_end_sequence` has: its code.
const END_SEQUENCE_SIZE: u64 = 1;

/// Puts the program of a table last: its sequences.
pub(crate) fn append_sequences(out: &mut Bytes, sequences: &Sequences) -> Result<(), NoMemory>
    ensures { OnOk result (out.new ≡ out.old ++ flat_map sequence_bytes sequences.now) }
{
    for i in 0..sequences.len() {
        append_sequence(out, sequences.sequence(i))?;
    }
    Ok(())
}

/// Puts a sequence last: it sets the address, appends the rows and ends.
pub fn append_sequence(out: &mut Bytes, sequence: SequenceRef<'_>) -> Result<(), NoMemory>
    ensures { OnOk result (out.new ≡ out.old ++ sequence_bytes (sequence_seen sequence.entry)) }
{
    let first = first_of(sequence.rows);
    append_set_address(out, first)?;
    append_rows(out, first, sequence.rows, sequence.end)?;
    Ok(())
}

/// The address of the first row.
fn first_of(rows: Rows<'_>) -> u64
    ensures { result ≡ first_address (rows_seen rows.entry) }
{
    match rows.first() {
        Some(row) => row.address,
        None => 0,
    }
}

/// Puts last what sets the address.
fn append_set_address(out: &mut Bytes, address: u64) -> Result<(), NoMemory>
    ensures { OnOk result (out.new ≡ out.old ++ set_address address) }
{
    append_extended(out, SET_ADDRESS_SIZE, DW_LNE_set_address)?;
    append_u64(out, address)?;
    Ok(())
}

/// Puts last what appends the rows and ends their sequence at an address, from the registers at a first address.
fn append_rows(out: &mut Bytes, first: u64, rows: Rows<'_>, end: u64) -> Result<(), NoMemory>
    ensures { OnOk result (out.new ≡ out.old ++ rows_bytes (registers_at first) (rows_seen rows.entry) end) }
{
    let mut before = start_at(first);
    for i in 0..rows.len() {
        let row = rows.row(i);
        append_row(out, &before, &row)?;
        before = behind(&row);
    }
    append_end(out, &before, end)?;
    Ok(())
}

/// Puts last what ends a sequence at an address.
fn append_end(out: &mut Bytes, before: &Row, end: u64) -> Result<(), NoMemory>
    ensures { OnOk result (out.new ≡ out.old ++ rows_bytes before.now [] end) }
{
    append_step(out, end.saturating_sub(before.address))?;
    append_extended(out, END_SEQUENCE_SIZE, DW_LNE_end_sequence)?;
    Ok(())
}

/// The registers at the beginning of a sequence (DWARF 4, section 6.2.2).
fn start_at(address: u64) -> Row
    ensures { result ≡ registers_at address }
{
    Row {
        address,
        file: 1,
        line: 1,
        column: 0,
        discriminator: 0,
        isa: 0,
        is_stmt: true,
        basic_block: false,
        prologue_end: false,
        epilogue_begin: false,
    }
}

/// The registers after a row.
fn behind(row: &Row) -> Row
    ensures { result ≡ registers_after row.now }
{
    Row {
        discriminator: 0,
        basic_block: false,
        prologue_end: false,
        epilogue_begin: false,
        ..*row
    }
}
