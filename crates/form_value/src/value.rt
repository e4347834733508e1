//! One attribute value, by its form.

ghost use Rattle.std.specs.Prelude.{◌≡◌, ◌<◌, Some, IfOk};
ghost use Rattle.ds_base.specs.Reading.{Moves, number_at};
ghost use Rattle.dwarf_types.specs.Put.{value_read};
ghost use Rattle.dwarf_types.specs.SectionBytes.{bytes_in};
ghost use Rattle.form_value.specs.Forms.{form_row};
ghost use Rattle.form_value.specs.Reading.{coded_at, block_at, class_at, value_at};

use crate::form::{Coding, FormClass, FormRow, form_class};
use byteorder::{ByteOrder, LittleEndian};
use ds_base::{Cursor, Fault, Kind};
use dwarf_types::{Field, RawValue, Sections};

/// The next value of an attribute in a unit of the given version (DWARF 5, section 7.5.5). What is long
/// is lent from the sections.
///
/// An address is the stored number. An expression is a `Block`. References, offsets into sections and
/// indices into tables are `Offset` of the stored number; whether it leads anywhere is not tried. A flag
/// that is only present is 1. Texts of `DW_FORM_strp` and `DW_FORM_line_strp` are those of their section. The
/// place that comes with a text is a hint, of which the clause says nothing. Faults are placed in the cursor's
/// part; they are `Truncated`, `LebTooWide`, `UnknownForm`, `FormOutsideProfile` and `BadOffset`. On a refusal the
/// cursor stays.
#[tactic(auto, unfolding(crate::specs::Reading::value_at))]
pub fn read_value<'a>(
    cursor: &mut Cursor<'a>,
    field: &Field,
    version: u16,
    sections: &Sections<'a>,
) -> Result<RawValue<'a>, Fault>
    ensures exact { Moves (λ value. value_read field.now.form value) result cursor.old cursor.new (value_at field.now version (bytes_in sections.now) cursor.old) }
    ensures known { IfOk result (λ _. field.now.form < 256) }
{
    let Some(row) = form_class(field.form) else {
        return Err(cursor.fault(Kind::UnknownForm));
    };
    if version < row.since {
        return Err(cursor.fault(Kind::FormOutsideProfile));
    }
    read_row(cursor, row, field, sections)
}

/// The next value, of a form of the given row.
#[tactic(auto, unfolding(crate::specs::Reading::class_at))]
fn read_row<'a>(
    cursor: &mut Cursor<'a>,
    row: FormRow,
    field: &Field,
    sections: &Sections<'a>,
) -> Result<RawValue<'a>, Fault>
    requires { form_row field.now.form ≡ Some row }
    ensures { Moves (λ value. value_read field.now.form value) result cursor.old cursor.new (class_at row.class field.now (bytes_in sections.now) cursor.old) }
{
    match row.class {
        FormClass::Address => Ok(RawValue::Address(cursor.u64()?)),
        FormClass::Text => {
            let bytes = cursor.text()?;
            Ok(RawValue::Text { bytes, place: None })
        }
        FormClass::StrText => {
            let (place, bytes) = cursor.placed_text(sections.strings)?;
            Ok(RawValue::Text {
                bytes,
                place: Some(place),
            })
        }
        FormClass::LineStrText => {
            let (place, bytes) = cursor.placed_text(sections.line_str)?;
            let place = place_behind(sections.strings, place);
            Ok(RawValue::Text { bytes, place })
        }
        FormClass::Number(coding) => Ok(RawValue::Number(read_coded(cursor, coding)?)),
        FormClass::Signed => Ok(RawValue::Number(cursor.sleb()?.cast_unsigned())),
        FormClass::Present => Ok(RawValue::Number(1)),
        FormClass::Implicit => Ok(RawValue::Number(field.fixed.cast_unsigned())),
        FormClass::Wide => Ok(RawValue::Wide(cursor.skip(16)?)),
        FormClass::Block(coding) => Ok(RawValue::Block(read_block(cursor, coding)?)),
        FormClass::Offset(coding) => Ok(RawValue::Offset(read_coded(cursor, coding)?)),
        FormClass::Outside => Err(cursor.fault(Kind::FormOutsideProfile)),
    }
}

/// A place of `__debug_line_str` among the texts of the sections, behind those of `__debug_str`, if 32 bits hold it.
fn place_behind(strings: &[u8], place: u32) -> Option<u32> {
    let Ok(before) = u32::try_from(strings.len()) else {
        return None;
    };
    before.checked_add(place)
}

/// The bytes behind their length.
#[tactic(auto, unfolding(crate::specs::Reading::block_at))]
fn read_block<'a>(cursor: &mut Cursor<'a>, coding: Coding) -> Result<&'a [u8], Fault>
    ensures { Moves (λ bytes. bytes.now) result cursor.old cursor.new (block_at coding cursor.old) }
{
    let mut next = cursor.fork();
    let len = read_coded(&mut next, coding)?;
    let bytes = next.skip(len)?;
    *cursor = next;
    Ok(bytes)
}

/// The next number without a sign.
#[tactic(auto, unfolding(crate::specs::Reading::coded_at))]
fn read_coded(cursor: &mut Cursor, coding: Coding) -> Result<u64, Fault>
    ensures { Moves (λ n. n) result cursor.old cursor.new (coded_at coding cursor.old) }
{
    match coding {
        Coding::One => Ok(u64::from(cursor.u8()?)),
        Coding::Two => Ok(u64::from(cursor.u16()?)),
        Coding::Three => Ok(u64::from(read_u24(cursor)?)),
        Coding::Four => Ok(u64::from(cursor.u32()?)),
        Coding::Eight => cursor.u64(),
        Coding::Leb => cursor.uleb(),
    }
}

/// The number in the next three bytes, the lowest byte first.
#[tactic(auto, unfolding(ds_base::specs::Reading::number_at, ds_base::specs::Reading::bytes_at))]
fn read_u24(cursor: &mut Cursor) -> Result<u32, Fault>
    ensures { Moves (λ n. n) result cursor.old cursor.new (number_at 3 cursor.old) }
{
    let bytes = cursor.skip(3)?;
    Ok(LittleEndian::read_u24(bytes))
}
