//! Headers of units.

ghost use Rattle.std.specs.Prelude.{◌≡◌, ◌≤◌, ◌<◌, length, IfOk};
ghost use Rattle.ds_base.specs.Reading.{Finds};
ghost use Rattle.dwarf_types.specs.SectionBytes.{bytes_in};
ghost use Rattle.unit_tree.specs.Header.{header_size as size_of_header, info_at, fields_4_at, fields_5_at, fields_at, header_at};

use ds_base::dwarf::{
    ADDRESS_SIZE, DW_UT_compile, DWARF_4, DWARF_5, LENGTH_RESERVED, UNIT_5_HEADER_SIZE,
    UNIT_HEADER_SIZE,
};
use ds_base::{Cursor, Fault, Kind, Part};
use dwarf_types::Sections;

/// What a unit's header says (DWARF 4, section 7.5.1.1; DWARF 5, section 7.5.1).
#[derive(Clone, Copy)]
pub(crate) struct Header {
    /// The unit's version.
    pub(crate) version: u16,
    /// The place of the unit's abbreviation table in `__debug_abbrev`.
    pub(crate) table: u32,
    /// The place behind the unit's last byte in `__debug_info`.
    pub(crate) end: u64,
}

/// A cursor at a place of `__debug_info`.
pub(crate) fn info_cursor<'a>(sections: &Sections<'a>, place: u64) -> Cursor<'a>
    requires { place ≤ length sections.now.info.now }
    ensures { result ≡ info_at (bytes_in sections.now) place }
{
    Cursor::new(sections.info, Part::Info, place, sections.info.len() as u64)
}

/// The header of the unit that begins at `place`, and a cursor behind it that ends with the unit.
#[tactic(auto, unfolding(crate::specs::Header::header_at, ds_base::specs::Reading::number_at))]
pub(crate) fn read_header<'a>(
    sections: &Sections<'a>,
    place: u64,
) -> Result<(Header, Cursor<'a>), Fault>
    requires { place ≤ length sections.now.info.now }
    ensures read { Finds (λ header. header) result (header_at (bytes_in sections.now) place) }
    ensures inside { IfOk result (λ header. header.0.end ≤ length sections.now.info.now) }
    ensures end { IfOk result (λ header. (header.1.place ≤ header.1.end) × (header.1.end ≡ header.0.end)) }
    ensures table { IfOk result (λ header. header.0.table < length sections.now.abbrev.now) }
{
    let end = sections.info.len() as u64;
    let first = info_cursor(sections, place);
    let len = first.fork().u32()?;
    if len >= LENGTH_RESERVED || end - (place + 4) < u64::from(len) {
        return Err(first.fault(Kind::BadUnit));
    }
    let body = place + 4;
    let cursor = Cursor::new(sections.info, Part::Info, body, body + u64::from(len));
    read_fields(sections, &first, cursor)
}

/// The fields behind the length of the unit that begins at `first`.
#[tactic(auto, unfolding(crate::specs::Header::fields_at, ds_base::specs::Reading::number_at))]
fn read_fields<'a>(
    sections: &Sections,
    first: &Cursor,
    cursor: Cursor<'a>,
) -> Result<(Header, Cursor<'a>), Fault>
    ensures read { Finds (λ header. header) result (fields_at (bytes_in sections.now) first.now cursor.entry) }
    ensures end { IfOk result (λ header. (header.0.end ≡ cursor.entry.end) × (header.1.end ≡ cursor.entry.end) × (header.1.place ≤ cursor.entry.end)) }
    ensures table { IfOk result (λ header. header.0.table < length sections.now.abbrev.now) }
{
    let mut cursor = cursor;
    let end = cursor.place() + cursor.left();
    let at = cursor.fork();
    let version = cursor.u16()?;
    if version != DWARF_4 && version != DWARF_5 {
        return Err(at.fault(Kind::UnsupportedVersion));
    }
    let (table, cursor) = if version == DWARF_5 {
        read_fields_5(sections, first, cursor)?
    } else {
        read_fields_4(sections, first, cursor)?
    };
    Ok((
        Header {
            version,
            table,
            end,
        },
        cursor,
    ))
}

/// The place of the abbreviation table, from the fields behind the version in a unit of version 4.
#[tactic(auto, unfolding(crate::specs::Header::fields_4_at, ds_base::specs::Reading::number_at))]
fn read_fields_4<'a>(
    sections: &Sections,
    first: &Cursor,
    cursor: Cursor<'a>,
) -> Result<(u32, Cursor<'a>), Fault>
    ensures read { Finds (λ table. table) result (fields_4_at (bytes_in sections.now) first.now cursor.entry) }
    ensures end { IfOk result (λ table. (table.1.end ≡ cursor.entry.end) × (table.1.place ≤ cursor.entry.end)) }
    ensures table { IfOk result (λ table. table.0 < length sections.now.abbrev.now) }
{
    let mut cursor = cursor;
    let offset = cursor.fork();
    let table = cursor.u32()?;
    if table as usize >= sections.abbrev.len() {
        return Err(offset.fault(Kind::BadOffset));
    }
    if cursor.u8()? != ADDRESS_SIZE {
        return Err(first.fault(Kind::BadUnit));
    }
    Ok((table, cursor))
}

/// The same in a unit of version 5, which has the unit's type too.
#[tactic(auto, unfolding(crate::specs::Header::fields_5_at, ds_base::specs::Reading::number_at))]
fn read_fields_5<'a>(
    sections: &Sections,
    first: &Cursor,
    cursor: Cursor<'a>,
) -> Result<(u32, Cursor<'a>), Fault>
    ensures read { Finds (λ table. table) result (fields_5_at (bytes_in sections.now) first.now cursor.entry) }
    ensures end { IfOk result (λ table. (table.1.end ≡ cursor.entry.end) × (table.1.place ≤ cursor.entry.end)) }
    ensures table { IfOk result (λ table. table.0 < length sections.now.abbrev.now) }
{
    let mut cursor = cursor;
    if cursor.u8()? != DW_UT_compile {
        return Err(first.fault(Kind::BadUnit));
    }
    if cursor.u8()? != ADDRESS_SIZE {
        return Err(first.fault(Kind::BadUnit));
    }
    let offset = cursor.fork();
    let table = cursor.u32()?;
    if table as usize >= sections.abbrev.len() {
        return Err(offset.fault(Kind::BadOffset));
    }
    Ok((table, cursor))
}

/// How many bytes stand before the first entry of a unit of a version.
pub fn header_size(version: u16) -> u8
    ensures { result ≡ size_of_header version }
{
    if version == DWARF_5 {
        UNIT_5_HEADER_SIZE
    } else {
        UNIT_HEADER_SIZE
    }
}
