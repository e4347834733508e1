//! The line tables of units (DWARF 4 and 5, section 3.1.1, the statement list).

ghost use Rattle.std.specs.Prelude.{◌≡◌, ◌<◌, length, slice_get, slice_set, true, Some, IfSome, OnOk};
ghost use Rattle.std.specs.List.{All};
ghost use Rattle.ds_base.specs.Reading.{Gives};
ghost use Rattle.dwarf_types.specs.SectionBytes.{bytes_in};
ghost use Rattle.dwarf_types.specs.Plain.{is_offset};
ghost use Rattle.dwarf_types.specs.Seen.{attr_seen, value_seen};
ghost use Rattle.dwarf_types.specs.declared.entry.Attr.{Attr as AnAttr};
ghost use Rattle.dwarf_types.specs.declared.entry.Entry.{Entry as AnEntry};
ghost use Rattle.object_view.specs.Attributes;
ghost use Rattle.object_view.specs.Seen.{opened_seen};
ghost use Rattle.object_view.specs.Ready.{HasRoot, IsFirstList, IsLinesInside, IsMarkedAt, IsOpen};

use crate::view::ObjectView;
use addr_map::AddrMap;
use ds_base::dwarf::{DW_AT_comp_dir, DW_AT_stmt_list, DW_FORM_sec_offset};
use ds_base::{List, NoMemory, ReadError};
use dwarf_types::{AttrRef, Entries, EntryRef, InUnit, NewValue, OutLines, SharedTexts, ValueRef};
use line_read::{lines_as, read_lines, table_version};
use moved_parts::move_lines;
use std::alloc::Global;

/// Reads the line tables of the units, one unit after the other. They share one copy of `__debug_line_str`.
pub(crate) fn read_line_tables(
    alloc: Global,
    object: &ObjectView,
    map: &AddrMap,
    entries: &Entries,
    units: &mut List<InUnit>,
) -> Result<(), ReadError>
    requires open { IsOpen (opened_seen object.now) map.now }
    requires roots { All (HasRoot (length entries.now)) units.old }
    requires inside { All (IsLinesInside (bytes_in object.now.sections) entries.now) units.old }
    ensures { Gives (λ _. units.new) result (Attributes.units_meant (opened_seen object.now) map.now entries.now units.old) }
{
    let texts = SharedTexts::of(alloc, object.sections.line_str)?;
    read_each(alloc, object, &texts, map, entries, units.as_mut_slice())
}

/// The same, in place.
fn read_each(
    alloc: Global,
    object: &ObjectView,
    texts: &SharedTexts,
    map: &AddrMap,
    entries: &Entries,
    units: &mut [InUnit],
) -> Result<(), ReadError>
    requires open { IsOpen (opened_seen object.now) map.now }
    requires roots { All (HasRoot (length entries.now)) units.old }
    requires inside { All (IsLinesInside (bytes_in object.now.sections) entries.now) units.old }
    ensures { Gives (λ _. units.new) result (Attributes.units_meant (opened_seen object.now) map.now entries.now units.old) }
{
    for unit in units.iter_mut() {
        read_unit_lines(alloc, object, texts, map, entries, unit)?;
    }
    Ok(())
}

/// Reads the line table of a unit, if its root names one.
fn read_unit_lines(
    alloc: Global,
    object: &ObjectView,
    texts: &SharedTexts,
    map: &AddrMap,
    entries: &Entries,
    unit: &mut InUnit,
) -> Result<(), ReadError>
    requires open { IsOpen (opened_seen object.now) map.now }
    requires root { HasRoot (length entries.now) unit.old }
    requires inside { IsLinesInside (bytes_in object.now.sections) entries.now unit.old }
    ensures { Gives (λ _. unit.new) result (Attributes.unit_with_lines (opened_seen object.now) map.now entries.now unit.old) }
{
    let root = entries.entry(unit.first as usize);
    let Some(place) = line_place(&root) else {
        return Ok(());
    };
    let dir = comp_dir(&root);
    unit.lines = Some(lines_at(alloc, object, texts, map, unit.version, dir, place)?);
    Ok(())
}

/// The line table at a place, of a unit of a version that was compiled in a directory.
fn lines_at(
    alloc: Global,
    object: &ObjectView,
    texts: &SharedTexts,
    map: &AddrMap,
    version: u16,
    dir: &[u8],
    place: u64,
) -> Result<OutLines, ReadError>
    requires open { IsOpen (opened_seen object.now) map.now }
    requires inside { place < length object.now.sections.line.now }
    ensures { Gives (λ lines. lines) result (Attributes.lines_meant (opened_seen object.now) map.now version dir.now place) }
{
    let table = table_version(&object.sections, place as u32, version)?;
    let lines = read_lines(
        alloc,
        &object.sections,
        texts,
        &object.relocs.line,
        object.image,
        place as u32,
        version,
    )?;
    let lines = lines_as(alloc, version, table, dir, lines)?;
    Ok(move_lines(alloc, map, lines)?)
}

/// The place of a unit's line table, which its root's first stmt_list tells where it is a section offset.
fn line_place(root: &EntryRef) -> Option<u64>
    ensures { result ≡ Attributes.line_place root.now }
{
    section_offset(&root.find(DW_AT_stmt_list)?)
}

/// A section offset; the index of a list is none.
fn section_offset(attr: &AttrRef<'_>) -> Option<u64>
    ensures { result ≡ Attributes.section_offset (attr_seen attr.now) }
{
    match attr.value {
        ValueRef::Offset(place) if attr.form == DW_FORM_sec_offset => Some(place),
        _ => None,
    }
}

/// The directory in which a unit was compiled, empty where its root tells none.
fn comp_dir<'a>(root: &EntryRef<'a>) -> &'a [u8]
    ensures { result.now ≡ Attributes.comp_dir root.now }
{
    match root.find(DW_AT_comp_dir) {
        Some(attr) => text_in(attr.value),
        None => &[],
    }
}

fn text_in<'a>(value: ValueRef<'a>) -> &'a [u8]
    ensures { result.now ≡ Attributes.text_in (value_seen value.entry) }
{
    match value {
        ValueRef::Text(text) => text,
        _ => &[],
    }
}

/// Tells of each unit's root that the unit has a line table, where it names one.
pub(crate) fn mark_all(entries: &mut Entries) -> Result<(), NoMemory>
    ensures { OnOk result (entries.new ≡ Attributes.all_marked entries.old) }
{
    for i in 0..entries.len() {
        mark_entry(entries, i)?;
    }
    Ok(())
}

/// The same of one entry, if it is a root.
fn mark_entry(entries: &mut Entries, i: usize) -> Result<(), NoMemory>
    requires { i < length entries.old }
    ensures { (e : AnEntry) → slice_get entries.old i ≡ Some e → OnOk result (entries.new ≡ slice_set entries.old i (Attributes.entry_marked e)) }
{
    match mark_at(&entries.entry(i)) {
        Some(j) => entries.set(i, j, NewValue::Lines),
        None => Ok(()),
    }
}

/// Where the attribute stands by which a root names the unit's line table: its first stmt_list, if that is a section
/// offset.
fn mark_at(entry: &EntryRef) -> Option<usize>
    ensures marked { IsMarkedAt entry.now result }
    ensures offset { IfSome result (λ j. (a : AnAttr) → slice_get entry.now.attrs j ≡ Some a → is_offset a.value ≡ true) }
{
    if entry.parent().is_some() {
        return None;
    }
    let j = stmt_list_at(entry)?;
    section_offset(&entry.attr(j))?;
    Some(j)
}

/// Where an entry's first stmt_list stands.
fn stmt_list_at(entry: &EntryRef) -> Option<usize>
    ensures { IsFirstList entry.now.attrs result }
{
    for j in 0..entry.len() {
        if entry.attr(j).name == DW_AT_stmt_list {
            return Some(j);
        }
    }
    None
}
