//! Line tables (DWARF 4, section 6.2.4; DWARF 5, section 6.2.4).

ghost use Rattle.std.specs.Prelude.{◌≡◌, ◌+◌, ◌++◌, length, OnOk};
ghost use Rattle.byteorder.specs.Endian.{little_bytes};
ghost use Rattle.dwarf_types.specs.LineTable.{fields_bytes, line_table_bytes, names_bytes, version_bytes};
ghost use Rattle.line_write.specs.Named.{AppendsNamed, table_of, texts_in};
ghost use Rattle.patches.specs.Filling.{Filling, filled};

use crate::names::append_entries;
use crate::sequences::append_sequences;
use crate::tables::append_tables;
use ds_base::dwarf::{
    ADDRESS_SIZE, DWARF_4, DWARF_5, LINE_BASE, LINE_RANGE, OFFSET_SIZE, OPCODE_BASE,
};
use ds_base::{Bytes, NoMemory};
use dwarf_types::OutLines;
use patches::Buffer;
use std::alloc::Global;
use text_pool::Naming;

/// How many bytes a length has.
const LENGTH_SIZE: usize = OFFSET_SIZE as usize;

/// How many bytes the version has.
const VERSION_SIZE: u128 = 2;

/// How many bytes the version has in version 5 with address_size and segment_selector_size.
const VERSION_5_SIZE: u128 = VERSION_SIZE + 2;

/// The segment_selector_size of targets without segments.
const NO_SEGMENT_SELECTOR: u8 = 0;

/// How many operands each standard operation has, from `DW_LNS_copy` on.
const STANDARD_OPCODE_LENGTHS: [u8; 12] = [0, 1, 1, 1, 1, 0, 0, 0, 1, 0, 0, 1];

/// Puts a line table last: of version 5, or of version 4 for every other number.
///
/// In version 5 the place of a text is a hole with the text's number among `names`, which grow by the directories and
/// then the files. In version 4 nothing is written of a file's digest. A length that has no place in four bytes is
/// written by its lowest four.
pub fn append_lines<'a>(
    alloc: Global,
    out: &mut Buffer,
    names: &mut Naming<'a>,
    version: u16,
    lines: &'a OutLines,
) -> Result<(), NoMemory>
    ensures table { OnOk result (AppendsNamed out.old out.new names.old names.new (λ text. line_table_bytes version text lines.now) (texts_in version lines.now)) }

    // Whatever is put into the holes, it is as long.
    ensures size { OnOk result ((f : Filling) → length (filled out.new f) ≡ length (filled out.old f) + length (line_table_bytes version (λ text. 0) lines.now)) }
{
    let mut fields = Buffer::new(alloc);
    append_fields(&mut fields, names, version, lines)?;
    let mut program = Bytes::new(alloc);
    append_sequences(&mut program, &lines.sequences)?;
    append_parts(out, version, &fields, program.as_slice())?;
    Ok(())
}

/// Puts a table of these fields and this program last.
fn append_parts(
    out: &mut Buffer,
    version: u16,
    fields: &Buffer,
    program: &[u8],
) -> Result<(), NoMemory>
    ensures table { OnOk result ((f : Filling) → filled out.new f ≡ filled out.old f ++ table_of version (filled fields.now f) program.now) }
    ensures size { (f g : Filling) → length (filled fields.now f) ≡ length (filled fields.now g) }
{
    let header_length = fields.len() as u128;
    let unit_length = version_len(version)
        + LENGTH_SIZE as u128
        + header_length
        + program.len() as u128;
    append_length(out, unit_length)?;
    append_version(out, version)?;
    append_length(out, header_length)?;
    out.append(fields)?;
    out.extend(program)?;
    Ok(())
}

/// Puts the four lowest bytes of a length last.
fn append_length(out: &mut Buffer, n: u128) -> Result<(), NoMemory>
    ensures { OnOk result ((f : Filling) → filled out.new f ≡ filled out.old f ++ little_bytes 4 n) }
{
    out.extend(&n.to_le_bytes()[..LENGTH_SIZE])?;
    Ok(())
}

/// How many bytes stand between unit_length and header_length.
fn version_len(version: u16) -> u128
    ensures { result ≡ length (version_bytes version) }
{
    if version == DWARF_5 {
        VERSION_5_SIZE
    } else {
        VERSION_SIZE
    }
}

/// Puts the version last, and in version 5 address_size and segment_selector_size.
fn append_version(out: &mut Buffer, version: u16) -> Result<(), NoMemory>
    ensures { OnOk result ((f : Filling) → filled out.new f ≡ filled out.old f ++ version_bytes version) }
{
    if version == DWARF_5 {
        out.extend(&DWARF_5.to_le_bytes())?;
        out.extend(&[ADDRESS_SIZE, NO_SEGMENT_SELECTOR])?;
    } else {
        out.extend(&DWARF_4.to_le_bytes())?;
    }
    Ok(())
}

/// Puts last the fields of the header that its length counts.
fn append_fields<'a>(
    out: &mut Buffer,
    names: &mut Naming<'a>,
    version: u16,
    lines: &'a OutLines,
) -> Result<(), NoMemory>
    ensures { OnOk result (AppendsNamed out.old out.new names.old names.new (λ text. fields_bytes version text lines.now) (texts_in version lines.now)) }
{
    // minimum_instruction_length, maximum_operations_per_instruction and default_is_stmt are 1.
    out.extend(&[1, 1, 1, LINE_BASE, LINE_RANGE, OPCODE_BASE])?;
    out.extend(&STANDARD_OPCODE_LENGTHS)?;
    append_names(out, names, version, lines)?;
    Ok(())
}

/// Puts the directories and files last.
fn append_names<'a>(
    out: &mut Buffer,
    names: &mut Naming<'a>,
    version: u16,
    lines: &'a OutLines,
) -> Result<(), NoMemory>
    ensures { OnOk result (AppendsNamed out.old out.new names.old names.new (λ text. names_bytes version text lines.now) (texts_in version lines.now)) }
{
    if version == DWARF_5 {
        append_entries(out, names, lines)?;
        return Ok(());
    }
    append_tables(out, lines)?;
    Ok(())
}
