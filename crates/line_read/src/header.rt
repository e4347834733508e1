//! The header of a line table, up to the directories.

ghost use Rattle.std.specs.Prelude.{◌≡◌, ◌<◌, ◌≤◌, [], length, IfOk};
ghost use Rattle.ds_base.specs.Reading.{Finds, Reads, ReadsUnlessFull, items_at, number_at};
ghost use Rattle.line_read.specs.Bounds.{HasLengths, IsInside};
ghost use Rattle.line_read.specs.Header;
ghost use Rattle.line_read.specs.Header.{line_at, table_at, version_at, sizes_at, program_at, operations_at, fields_at};

use ds_base::dwarf::{ADDRESS_SIZE, LENGTH_RESERVED};
use ds_base::{Cursor, Fault, Kind, List, Part, ReadError};
use std::alloc::Global;

/// The version of the tables of DWARF 2, the first.
const FIRST_VERSION: u16 = 2;

/// The version of the tables of DWARF 5.
const LAST_VERSION: u16 = 5;

/// The version of the tables of DWARF 4.
const LAST_WITHOUT_FORMATS: u16 = 4;

/// The first version whose directories and files have entry formats. Its header tells the sizes of an address and of a
/// segment selector, and its units are the first that have such tables.
pub(crate) const FORMATS_SINCE: u16 = 5;

/// The first version that has maximum_operations_per_instruction.
const OPERATIONS_SINCE: u16 = 4;

/// The most operations that an instruction may have: programs for VLIW machines are not read.
const MOST_OPERATIONS: u8 = 1;

/// What a header says of the program (DWARF 4 and DWARF 5, section 6.2.4), under the standard's names.
#[derive(Drop)]
pub(crate) struct LineHeader {
    /// The table's own version.
    pub(crate) version: u16,
    /// In bytes.
    pub(crate) minimum_instruction_length: u8,
    pub(crate) default_is_stmt: bool,
    pub(crate) line_base: i8,
    pub(crate) line_range: u8,
    /// The code of the first special operation.
    pub(crate) opcode_base: u8,
    /// How many operands each standard operation has, from that of code 1 on.
    pub(crate) standard_opcode_lengths: List<u8>,
}

/// A cursor at a place of `__debug_line`.
pub(crate) fn line_cursor(bytes: &[u8], place: u64) -> Cursor
    requires { place ≤ length bytes.now }
    ensures { result ≡ line_at bytes.now place }
{
    Cursor::new(bytes, Part::Line, place, bytes.len() as u64)
}

/// A cursor behind the length of the table that begins at `place`. It ends with the table.
#[tactic(auto, unfolding(crate::specs::Header::table_at, ds_base::specs::Reading::number_at))]
pub(crate) fn open_table(bytes: &[u8], place: u64) -> Result<Cursor, Fault>
    requires { place ≤ length bytes.now }
    ensures read { Finds (λ cursor. cursor) result (table_at (line_at bytes.now place)) }
    ensures inside { IfOk result (IsInside bytes.now) }
{
    let first = line_cursor(bytes, place);
    let mut cursor = first.fork();
    let len = cursor.u32()?;
    if len >= LENGTH_RESERVED || cursor.left() < u64::from(len) {
        return Err(first.fault(Kind::BadLineHeader));
    }
    let body = cursor.place();
    Ok(Cursor::new(bytes, Part::Line, body, body + u64::from(len)))
}

/// The table's own version, in a unit of version `unit`.
#[tactic(auto, unfolding(crate::specs::Header::version_at))]
pub(crate) fn read_version(cursor: &mut Cursor, unit: u16) -> Result<u16, Fault>
    ensures { Reads (λ version. version) result cursor.new (version_at unit cursor.old) }
{
    let field = cursor.fork();
    let version = cursor.u16()?;
    if version < FIRST_VERSION || version > last_version(unit) {
        return Err(field.fault(Kind::LineVersion));
    }
    Ok(version)
}

/// The last version of the tables that units of a version have.
fn last_version(unit: u16) -> u16
    ensures { result ≡ Header.last_version unit }
{
    if unit < FORMATS_SINCE {
        LAST_WITHOUT_FORMATS
    } else {
        LAST_VERSION
    }
}

/// Reads address_size and segment_selector_size, which version 5 is the first to have. `first` is where the table begins.
#[tactic(auto, unfolding(crate::specs::Header::sizes_at))]
pub(crate) fn check_sizes(cursor: &mut Cursor, first: &Cursor, version: u16) -> Result<(), Fault>
    ensures { Reads (λ _. tt) result cursor.new (sizes_at first.now version cursor.old) }
{
    if version < FORMATS_SINCE {
        return Ok(());
    }
    if cursor.u8()? != ADDRESS_SIZE {
        return Err(first.fault(Kind::BadLineHeader));
    }
    if cursor.u8()? != 0 {
        return Err(first.fault(Kind::BadLineHeader));
    }
    Ok(())
}

/// A cursor at the program, as header_length tells. `first` is where the table begins.
#[tactic(auto, unfolding(crate::specs::Header::program_at, ds_base::specs::Reading::bytes_at))]
pub(crate) fn read_program<'a>(cursor: &mut Cursor<'a>, first: &Cursor) -> Result<Cursor<'a>, Fault>
    ensures { Reads (λ program. program) result cursor.new (program_at first.now cursor.old) }
{
    let len = u64::from(cursor.u32()?);
    let mut program = cursor.fork();
    match program.skip(len) {
        Ok(_) => Ok(program),
        Err(_) => Err(first.fault(Kind::BadLineHeader)),
    }
}

/// The fields from minimum_instruction_length to standard_opcode_lengths.
#[tactic(auto, unfolding(crate::specs::Header::fields_at))]
pub(crate) fn read_fields(
    alloc: Global,
    cursor: &mut Cursor,
    first: &Cursor,
    version: u16,
) -> Result<LineHeader, ReadError>
    ensures read { ReadsUnlessFull (λ header. header) result cursor.new (fields_at first.now version cursor.old) }
    ensures range { IfOk result (λ header. 0 < header.line_range) }
    ensures lengths { IfOk result HasLengths }
{
    let minimum_instruction_length = cursor.u8()?;
    check_operations(cursor, first, version)?;
    let is_stmt = cursor.u8()?;
    let line_base = cursor.u8()?;
    let line_range = cursor.u8()?;
    if line_range == 0 {
        return Err(ReadError::Faulty(first.fault(Kind::BadLineHeader)));
    }
    let opcode_base = cursor.u8()?;
    if opcode_base == 0 {
        return Err(ReadError::Faulty(first.fault(Kind::BadLineHeader)));
    }
    let standard_opcode_lengths = read_lengths(alloc, cursor, opcode_base - 1)?;
    Ok(LineHeader {
        version,
        minimum_instruction_length,
        default_is_stmt: is_stmt != 0,
        line_base: line_base.cast_signed(),
        line_range,
        opcode_base,
        standard_opcode_lengths,
    })
}

/// Reads maximum_operations_per_instruction, which version 4 is the first to have.
#[tactic(auto, unfolding(crate::specs::Header::operations_at))]
fn check_operations(cursor: &mut Cursor, first: &Cursor, version: u16) -> Result<(), Fault>
    ensures { Reads (λ _. tt) result cursor.new (operations_at first.now version cursor.old) }
{
    if version >= OPERATIONS_SINCE && cursor.u8()? > MOST_OPERATIONS {
        return Err(first.fault(Kind::VliwLine));
    }
    Ok(())
}

/// So many operand counts, of a byte each.
fn read_lengths(alloc: Global, cursor: &mut Cursor, count: u8) -> Result<List<u8>, ReadError>
    ensures read { ReadsUnlessFull (λ lengths. lengths) result cursor.new (items_at (number_at 1) count [] cursor.old) }
    ensures all { IfOk result (λ lengths. length lengths ≡ count) }
{
    let mut lengths = List::new(alloc);
    for _ in 0..count {
        lengths.push(cursor.u8()?)?;
    }
    Ok(lengths)
}
