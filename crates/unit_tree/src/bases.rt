//! The bases of a unit's tables, read from its root before its entries are.

ghost use Rattle.std.specs.Prelude.{◌≡◌, ◌≤◌, ℕ, [], length, IfOk};
ghost use Rattle.ds_base.specs.Reading.{Gives};
ghost use Rattle.ds_base.specs.Spot.{IsSmall};
ghost use Rattle.dwarf_types.specs.declared.abbrev.TheConstants.{MOST_FIELDS};
ghost use Rattle.dwarf_types.specs.Put.{value_read};
ghost use Rattle.dwarf_types.specs.SectionBytes.{bytes_in};
ghost use Rattle.index_tables.specs.Bases.{base_in, bases_in};
ghost use Rattle.unit_tree.specs.Entry.{bases_told};

use crate::attribute::{UnitContext, read_attr};
use ds_base::dwarf::DW_TAG_compile_unit;
use ds_base::{Cursor, NoMemory, ReadError};
use dwarf_types::{Builder, Field, RawValue, Sections};
use index_tables::{Bases, bases_of};
use std::alloc::Global;

/// The bases in a root whose attributes stand at the cursor. Its values are read, and no index is tried.
///
/// No text is kept, since none is a base: many attributes of a root may name one long text.
pub(crate) fn read_bases<'a>(
    alloc: Global,
    cursor: &mut Cursor<'a>,
    sections: &Sections<'a>,
    context: UnitContext,
    fields: &[Field],
) -> Result<Bases, ReadError>
    requires small { IsSmall cursor.old }
    requires few { length fields.now ≤ MOST_FIELDS }
    ensures { Gives (λ bases. bases) result (bases_told (bytes_in sections.now) context fields.now cursor.old) }
{
    let mut built = Builder::new(alloc, &[], &[], 0)?;
    read_into(cursor, sections, context, fields, &mut built)
}

/// The bases in a root whose attributes stand at the cursor. They are put into `built`, but for their texts.
fn read_into<'a>(
    cursor: &mut Cursor<'a>,
    sections: &Sections<'a>,
    context: UnitContext,
    fields: &[Field],
    built: &mut Builder,
) -> Result<Bases, ReadError>
    requires small { IsSmall cursor.old }
    requires few { length fields.now ≤ MOST_FIELDS }
    requires nothing { built.old ≡ record { entries = []; attrs = [] } }
    ensures { Gives (λ bases. bases) result (bases_told (bytes_in sections.now) context fields.now cursor.old) }
{
    for field in fields {
        let (end, value, _) = read_attr(cursor, sections, context, true, field, built)?;
        built.push(field.name, field.form, end, without_text(value))?;
    }
    Ok(bases_so_far(built)?)
}

/// A value, in the place of whose text, if it is one, an empty one stands.
fn without_text(value: RawValue<'_>) -> RawValue<'_>
    ensures { (none form : ℕ) → base_in none form (value_read form result) ≡ base_in none form (value_read form value.entry) }
{
    match value {
        RawValue::Text { .. } => RawValue::Text {
            bytes: b"",
            place: None,
        },
        other => other,
    }
}

/// The bases in a root whose attributes were put.
fn bases_so_far(built: &mut Builder) -> Result<Bases, NoMemory>
    requires none { built.old.entries ≡ [] }
    requires few { length built.old.attrs ≤ MOST_FIELDS }
    ensures { IfOk result (λ bases. bases ≡ bases_in built.old.attrs) }
{
    built.close(None, 0, 0, DW_TAG_compile_unit)?;
    match built.get(0) {
        Some(root) => Ok(bases_of(&root)),
        None => unreachable!(),
    }
}
