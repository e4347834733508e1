//! Small analyses of one unit: a row is an entry as a reader finds it, in the order of their numbers. The root, which is
//! entry 0, has no row.

ghost use Rattle.std.specs.Prelude.{◌≡◌, ◌<◌, ◌+◌, ℕ, [], ◌∷◌, ◌++◌, None, true, length};
ghost use Rattle.dwarf_types.specs.declared.entry.Entry.{Entry as EntrySpec};
ghost use Rattle.dwarf_types.specs.declared.abbrev.TheConstants.{MOST_FIELDS};
ghost use Rattle.dwarf_types.specs.declared.entry.TheConstants.{MOST_ENTRIES};
ghost use Rattle.dwarf_types.specs.Live.{Stands};
ghost use Rattle.dwarf_types.specs.Put.{value_read};
ghost use Rattle.dwarf_types.specs.Raw.{entry_of};
ghost use Rattle.dwarf_types.specs.Sound.{IsSound};
ghost use Rattle.choosing_tests.specs.SoundTests.{is_sound, is_within, raw_attr, raw_of};

use ds_base::List;
use ds_base::dwarf::{
    DW_AT_const_value, DW_AT_decl_line, DW_AT_name, DW_AT_type, DW_TAG_compile_unit,
    DW_TAG_structure_type, DW_TAG_variable,
};
use dwarf_types::{Analysis, Builder, Entries, InUnit, OutFrames, RawValue};
use std::alloc::Global;
use std::process::Abort;

/// An attribute: its name and its value.
type Says = (u16, RawValue<'static>);

/// An entry: its parent, its tag, and two attributes.
#[derive(Clone, Copy)]
pub(crate) struct Row {
    parent: u16,
    tag: u16,
    first: Says,
    second: Says,
}

/// What nobody asks for.
const LINE: Says = (DW_AT_decl_line, RawValue::Number(1));

/// An entry of which nothing is told but its parent and its tag.
pub(crate) fn bare(parent: u16, tag: u16) -> Row {
    one(parent, tag, LINE)
}

/// One that says one thing.
fn one(parent: u16, tag: u16, first: Says) -> Row {
    Row {
        parent,
        tag,
        first,
        second: LINE,
    }
}

/// One that refers to another in an attribute of this name.
pub(crate) fn refers(parent: u16, tag: u16, name: u16, target: u32) -> Row {
    one(parent, tag, (name, RawValue::Ref(target)))
}

fn name(bytes: &'static [u8]) -> Says {
    (DW_AT_name, RawValue::Text { bytes, place: None })
}

/// A structure of this name.
pub(crate) fn structure(text: &'static [u8]) -> Row {
    one(0, DW_TAG_structure_type, name(text))
}

/// A constant under another entry, which is live outside of functions.
pub(crate) fn constant(parent: u16) -> Row {
    one(
        parent,
        DW_TAG_variable,
        (DW_AT_const_value, RawValue::Number(7)),
    )
}

/// A live constant of a type.
pub(crate) fn user(target: u32) -> Row {
    Row {
        parent: 0,
        tag: DW_TAG_variable,
        first: (DW_AT_const_value, RawValue::Number(7)),
        second: (DW_AT_type, RawValue::Ref(target)),
    }
}

// ---- analyses

/// The analysis of these rows, which are one unit of a language. There is no code, and no line table.
pub(crate) fn analysis_in(rt: &impl Abort, alloc: Global, language: u16, rows: &[Row]) -> Analysis
    requires { length rows.now < MOST_ENTRIES }
    ensures { IsSound result }
{
    let entries = entries_of(rt, alloc, rows);
    Analysis {
        units: unit_of(rt, alloc, language, entries.len() as u32),
        entries,
        code: List::new(alloc),
        frames: OutFrames::new(alloc),
    }
}

/// A unit of version 4 that has so many entries.
fn unit_of(rt: &impl Abort, alloc: Global, language: u16, count: u32) -> List<InUnit>
    ensures { result ≡ record { first = 0; count = count; version = 4; language = language; lines = None } ∷ [] }
{
    let mut units = List::new(alloc);
    let unit = InUnit {
        first: 0,
        count,
        version: 4,
        language,
        lines: None,
    };
    units.push(unit).expect(rt, "memory");
    units
}

/// The entries of rows behind the root.
fn entries_of(rt: &impl Abort, alloc: Global, rows: &[Row]) -> Entries
    requires { length rows.now < MOST_ENTRIES }
    ensures len { length result ≡ length rows.now + 1 }
    ensures each { (k : ℕ) (e : EntrySpec) → Stands result k e → is_sound (length result) k e ≡ true }
{
    let count = rows.len() + 1;
    let mut built = Builder::new(alloc, &[], &[], 0).expect(rt, "memory");
    built
        .close(None, 0, 0, DW_TAG_compile_unit)
        .expect(rt, "memory");
    for row in rows {
        push_row(rt, &mut built, row, count);
    }
    built.finish().into_entries()
}

/// Makes an entry of a row, which may be the next of so many. No form is told, since nobody here asks for it.
fn push_row(rt: &impl Abort, built: &mut Builder, row: &Row, count: usize)
    requires empty { built.old.attrs ≡ [] }
    requires room { length built.old.entries < MOST_ENTRIES }
    ensures made { built.new ≡ record { entries = built.old.entries ++ raw_of row.now.parent row.now.tag row.now.first row.now.second ∷ []; attrs = [] } }
    ensures sound { is_sound count (length built.old.entries) (entry_of (raw_of row.now.parent row.now.tag row.now.first row.now.second)) ≡ true }
{
    assert!(rt; is_sound(row, built.len(), count));
    push_attr(rt, built, row.first);
    push_attr(rt, built, row.second);
    built
        .close(Some(u32::from(row.parent)), 0, 0, row.tag)
        .expect(rt, "memory");
}

/// Puts an attribute behind those of the entry that is being made.
fn push_attr(rt: &impl Abort, built: &mut Builder, says: Says)
    requires few { length built.old.attrs < MOST_FIELDS }
    requires room { length built.old.entries < MOST_ENTRIES }
    ensures { built.new ≡ record { entries = built.old.entries; attrs = built.old.attrs ++ raw_attr says.entry ∷ [] } }
{
    built.push(says.0, 0, 0, says.1).expect(rt, "memory");
}

/// Whether a row may be entry `k` of a unit that has so many.
fn is_sound(row: &Row, k: usize, count: usize) -> bool
    ensures { result ≡ is_sound count k (entry_of (raw_of row.now.parent row.now.tag row.now.first row.now.second)) }
{
    (row.parent as usize) < k && is_within(&row.first.1, count) && is_within(&row.second.1, count)
}

/// Whether a value leads to one of the first `count` entries, where it is a reference.
fn is_within(value: &RawValue, count: usize) -> bool
    ensures { result ≡ is_within count (value_read 0 value.now) }
{
    match value {
        RawValue::Ref(target) => (*target as usize) < count,
        _ => true,
    }
}
