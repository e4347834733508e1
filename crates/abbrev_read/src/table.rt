//! One table, from its place in the section.

ghost use Rattle.std.specs.Prelude.{◌≡◌, ◌<◌, [], length, All, IfOk};
ghost use Rattle.ds_base.specs.Reading.{Gives, Reads, ReadsUnlessFull};
ghost use Rattle.abbrev_read.specs.Reading.{short_at, pair_at, field_at, fields_at, declaration_at, table_at};
ghost use Rattle.abbrev_read.specs.Spelling.{HasFewFields};

use crate::codes::Codes;
use ds_base::dwarf::DW_FORM_implicit_const;
use ds_base::{Cursor, Fault, Kind, List, Part, ReadError};
use dwarf_types::{Abbrev, Field, MOST_FIELDS};
use std::alloc::Global;

/// The declarations of the abbreviation table at `offset` (DWARF 4, section 7.5.3), in their order.
///
/// `bytes` is the whole of `__debug_abbrev`, and `offset` counts bytes from its start, as do the
/// places of faults. They are `Truncated`, `LebTooWide`, `BadAbbrev`, `DuplicateCode` and `LimitAttributes`.
/// "Abbreviations for a given compilation unit end with an entry consisting of a 0 byte for the abbreviation code."
pub fn read_table(alloc: Global, bytes: &[u8], offset: u32) -> Result<List<Abbrev>, ReadError>
    requires inside { offset < length bytes.now }
    ensures exact { Gives (λ table. table) result (table_at bytes.now offset) }
    ensures few { IfOk result (λ table. All HasFewFields table) }
{
    let end = bytes.len() as u64;
    let mut cursor = Cursor::new(bytes, Part::Abbrev, u64::from(offset), end);
    let mut table = List::new(alloc);
    let mut codes = Codes::new(alloc);
    let left = cursor.left();
    for _ in 0..left {
        let first = cursor.fork();
        let code = cursor.uleb()?;
        if code == 0 {
            return Ok(table);
        }
        let new = codes.add(code)?;
        if !new {
            return Err(ReadError::Faulty(first.fault(Kind::DuplicateCode)));
        }
        let declared = read_declaration(alloc, &mut cursor, &first, code)?;
        table.push(declared)?;
    }
    Err(ReadError::Faulty(cursor.fault(Kind::Truncated)))
}

/// What follows the code of the declaration that begins at `first`.
#[tactic(auto, unfolding(crate::specs::Reading::declaration_at))]
fn read_declaration(
    alloc: Global,
    cursor: &mut Cursor,
    first: &Cursor,
    code: u64,
) -> Result<Abbrev, ReadError>
    ensures read { ReadsUnlessFull (λ declared. declared) result cursor.new (declaration_at code first.now cursor.old) }
    ensures code { IfOk result (λ declared. declared.code ≡ code) }
{
    let tag = read_short(cursor, first)?;
    if tag == 0 {
        return Err(ReadError::Faulty(first.fault(Kind::BadAbbrev)));
    }
    let children = cursor.u8()?;
    if children > 1 {
        return Err(ReadError::Faulty(first.fault(Kind::BadAbbrev)));
    }
    let fields = read_fields(alloc, cursor, first)?;
    Ok(Abbrev {
        code,
        tag,
        children: children == 1,
        fields,
    })
}

/// The attributes of a declaration, up to the two zeros.
fn read_fields(alloc: Global, cursor: &mut Cursor, first: &Cursor) -> Result<List<Field>, ReadError>
    ensures { ReadsUnlessFull (λ fields. fields) result cursor.new (fields_at 256 [] first.now cursor.old) }
{
    let mut fields = List::new(alloc);
    for _ in 0..MOST_FIELDS {
        let Some((name, form)) = read_pair(cursor, first)? else {
            return Ok(fields);
        };
        let field = read_field(cursor, name, form)?;
        fields.push(field)?;
    }
    if read_pair(cursor, first)?.is_some() {
        return Err(ReadError::Faulty(first.fault(Kind::LimitAttributes)));
    }
    Ok(fields)
}

/// An attribute's number and that of its form, or `None` at the two zeros that end the attributes.
#[tactic(auto, unfolding(crate::specs::Reading::pair_at))]
fn read_pair(cursor: &mut Cursor, first: &Cursor) -> Result<Option<(u16, u16)>, Fault>
    ensures { Reads (λ pair. pair) result cursor.new (pair_at first.now cursor.old) }
{
    let name = read_short(cursor, first)?;
    let form = read_short(cursor, first)?;
    if name == 0 {
        if form > 0 {
            return Err(first.fault(Kind::BadAbbrev));
        }
        return Ok(None);
    }
    if form == 0 {
        return Err(first.fault(Kind::BadAbbrev));
    }
    Ok(Some((name, form)))
}

/// What the table says of an attribute behind the two numbers: an implicit constant is followed by
/// its value (DWARF 5, section 7.5.3).
#[tactic(auto, unfolding(crate::specs::Reading::field_at))]
fn read_field(cursor: &mut Cursor, name: u16, form: u16) -> Result<Field, Fault>
    ensures { Reads (λ field. field) result cursor.new (field_at (name, form) cursor.old) }
{
    if form == DW_FORM_implicit_const {
        let fixed = cursor.sleb()?;
        return Ok(Field { name, form, fixed });
    }
    Ok(Field {
        name,
        form,
        fixed: 0,
    })
}

/// A number of 16 bits, spelled as a LEB number.
#[tactic(auto, unfolding(crate::specs::Reading::short_at))]
fn read_short(cursor: &mut Cursor, first: &Cursor) -> Result<u16, Fault>
    ensures { Reads (λ n. n) result cursor.new (short_at first.now cursor.old) }
{
    let n = cursor.uleb()?;
    if n > 65535 {
        return Err(first.fault(Kind::BadAbbrev));
    }
    Ok(n as u16)
}
