//! The units of an object.

ghost use Rattle.std.specs.Prelude.{◌≡◌, ◌≤◌, ◌<◌, ◌^◌, [], length, map, Some, IfOk, OnOk};
ghost use Rattle.std.specs.List.{list_all};
ghost use Rattle.ds_base.specs.Reading.{Finds, Gives};
ghost use Rattle.dwarf_types.specs.Raw.{places_of};
ghost use Rattle.dwarf_types.specs.SectionBytes.{bytes_in};
ghost use Rattle.dwarf_types.specs.Seen.{value_seen};
ghost use Rattle.dwarf_types.specs.Spelled.{AreBytes};
ghost use Rattle.dwarf_types.specs.declared.entry.TheConstants.{MOST_ENTRIES};
ghost use Rattle.unit_tree.specs.declared.packed.TheConstants.{ANY_UNIT};
ghost use Rattle.unit_tree.specs.Bounds.{IsReady, parsed_seen};
ghost use Rattle.unit_tree.specs.Inside.{AreInside};
ghost use Rattle.unit_tree.specs.Sound.{AreSound};
ghost use Rattle.unit_tree.specs.Table.{AreRead};
ghost use Rattle.unit_tree.specs.Targets.{number_at, targets_of};
ghost use Rattle.unit_tree.specs.Unit.{short_in, language_of, unit_from, is_zero, zeros_at, context_in, unit_behind, unit_at, parsed_of, units_of, nothing};
ghost use Rattle.unit_tree.specs.declared.profile.Profile.TheVariants.{Input};
ghost use Rattle.ds_base.specs.Spot.{IsSmall};

use crate::attribute::UnitContext;
use crate::entry::{find_bases, read_tree};
use crate::header::{Header, info_cursor, read_header};
use crate::parsed::Parsed;
use crate::profile::Profile;
use crate::reference::resolve;
use crate::table::{Table, Tables, add_table, kept_table};
use abbrev_read::read_table;
use ds_base::dwarf::DW_AT_language;
use ds_base::{Cursor, Fault, Kind, List, ReadError};
use dwarf_types::{Builder, InUnit, RawEntryRef, RawUnits, Sections, ValueRef, is_flag};
use std::alloc::Global;
use std::collections::BTreeMap;

/// The units of an object and their entries, in document order (DWARF 4, section 7.5; DWARF 5, section
/// 7.5).
///
/// Units and entries are numbered from 0 over the whole object; an entry stands before those below it.
/// Places count bytes from the start of `__debug_info`. A reference is `Ref` of the place of its target,
/// `DW_AT_sibling` too. The index of a text is that text, and the index of a list is `Offset` of the list's
/// place in the section of its attribute's lists; the index of an address stays that index. Every other
/// value is as `form_value::read_value` gives it. A unit's language is its root's where that is a constant
/// below 65536 and no flag, else 0.
///
/// Faults are placed in `__debug_info`, those of an abbreviation table in `__debug_abbrev`. They are those of
/// `abbrev_read::read_table` and `form_value::read_value`, and `UnsupportedVersion`, `BadUnit`, `SplitUnit`,
/// `UnknownCode`, `UnclosedSiblings`, `LimitDepth`, `LimitEntries`, `BadReference` and `BadIndex`. Indices of a
/// root's values are tried after its last value, since the bases of the unit's tables stand there. References
/// are tried after all units; [`read_resolved_units`] says where they lead. The time is linear in the
/// sections, where no abbreviation tables run into one another and no long text is named again and again.
pub fn read_units(alloc: Global, sections: &Sections) -> Result<RawUnits, ReadError>
    requires info { length sections.now.info.now < 2 ^ 32 }
    ensures exact { Gives (λ units. units) result (units_of (bytes_in sections.now)) }

    // Units follow one another and are all entries, and each parent stands before its children in the unit.
    ensures sound { IfOk result AreSound }

    // Values stand before their ends, references lead to entries, offsets are inside their sections, and indices
    // of addresses lead to these.
    ensures inside { AreBytes sections.now.info.now → AreBytes sections.now.abbrev.now → IfOk result (λ raw. AreInside (bytes_in sections.now) raw) }
{
    let (units, _) = read_resolved_units(alloc, sections)?;
    Ok(units)
}

/// The units of an object as [`read_units`] gives them, and the numbers of the entries to which their references lead,
/// one for each `Ref` value, in document order.
#[tactic(auto, unfolding(crate::specs::Unit::units_of))]
pub fn read_resolved_units(
    alloc: Global,
    sections: &Sections,
) -> Result<(RawUnits, List<u32>), ReadError>
    requires info { length sections.now.info.now < 2 ^ 32 }
    ensures exact { Gives (λ r. r.0) result (units_of (bytes_in sections.now)) }

    // Units follow one another and are all entries, and each parent stands before its children in the unit.
    ensures sound { IfOk result (λ r. AreSound r.0) }

    // Values stand before their ends, references lead to entries, offsets are inside their sections, and indices
    // of addresses lead to these.
    ensures inside { AreBytes sections.now.info.now → AreBytes sections.now.abbrev.now → IfOk result (λ r. AreInside (bytes_in sections.now) r.0) }

    // The numbers are those of the entries at the places in `Ref` values.
    ensures numbers { IfOk result (λ r. map Some r.1 ≡ map (number_at (places_of r.0.entries)) (targets_of r.0.entries)) }
{
    let mut parsed = Parsed::new(alloc, sections, sections.info.len())?;
    let units = read_each(alloc, sections, &mut parsed)?;
    let Parsed { built, references } = parsed;
    let entries = built.finish();
    let numbers = resolve(alloc, &entries, references.as_slice())?;
    Ok((RawUnits { units, entries }, numbers))
}

/// Reads the units one after the other, and puts their entries behind those before.
fn read_each(
    alloc: Global,
    sections: &Sections,
    parsed: &mut Parsed,
) -> Result<List<InUnit>, ReadError>
    requires info { length sections.now.info.now < 2 ^ 32 }
    requires nothing { parsed_seen parsed.old ≡ nothing }
    requires ready { IsReady parsed.old }
    ensures read { Gives (λ units. (units, parsed_seen parsed.new)) result (parsed_of (bytes_in sections.now)) }
{
    let mut tables: Tables = BTreeMap::new(alloc);
    let mut units = List::new(alloc);
    let end = sections.info.len() as u64;
    let mut place = 0u64;
    while place < end {
        let number = units.len() as u32;
        let (unit, next) = next_unit(alloc, sections, &mut tables, number, place, parsed)?;
        units.push(unit)?;
        place = next;
    }
    Ok(units)
}

/// Reads the unit of an object that has a number and begins at `place`, and puts its entries behind those before.
/// Answers the place behind it, too. What was read of abbreviation tables is kept: units may share one.
#[tactic(auto, unfolding(crate::specs::Unit::unit_at))]
fn next_unit(
    alloc: Global,
    sections: &Sections,
    tables: &mut Tables,
    number: u32,
    place: u64,
    parsed: &mut Parsed,
) -> Result<(InUnit, u64), ReadError>
    requires info { length sections.now.info.now < 2 ^ 32 }
    requires number { number < ANY_UNIT }
    requires inside { place ≤ length sections.now.info.now }
    requires ready { IsReady parsed.old }
    requires tables { AreRead sections.now.abbrev.now tables.old }
    ensures read { Gives (λ unit. ((unit.0, parsed_seen parsed.new), unit.1)) result (unit_at Input (bytes_in sections.now) number (parsed_seen parsed.old) place) }
    ensures inside { IfOk result (λ unit. unit.1 ≤ length sections.now.info.now) }
    ensures ready { OnOk result (IsReady parsed.new) }
    ensures tables { AreRead sections.now.abbrev.now tables.new }
{
    let header = read_header(sections, place)?;
    add_table(alloc, tables, sections.abbrev, header.0.table)?;
    let table = kept_table(tables, header.0.table);
    let context = context_of(Profile::Input, number, place, header.0.version);
    read_behind(alloc, sections, context, header, table, parsed)
}

/// Reads the unit of a number that begins at `place`, and puts its entries behind those before. Answers the place
/// behind it, too.
///
/// Of a section that is read unit by unit, and whose entries are let go in between, the entries of each unit are
/// numbered from 0. The unit's abbreviation table is read anew. Faults are those of [`read_units`], and for
/// [`Profile::Output`] also `BadOutput`, at a section offset that leads to no table or list; where references lead is
/// not tried.
#[tactic(auto, unfolding(crate::specs::Unit::unit_at))]
pub fn read_unit(
    alloc: Global,
    sections: &Sections,
    profile: Profile,
    number: u32,
    place: u64,
    into: &mut Parsed,
) -> Result<(InUnit, u64), ReadError>
    requires info { length sections.now.info.now < 2 ^ 32 }
    requires number { number < ANY_UNIT }
    requires inside { place ≤ length sections.now.info.now }
    requires ready { IsReady into.old }
    ensures read { Gives (λ unit. ((unit.0, parsed_seen into.new), unit.1)) result (unit_at profile (bytes_in sections.now) number (parsed_seen into.old) place) }
    ensures inside { IfOk result (λ unit. unit.1 ≤ length sections.now.info.now) }
    ensures ready { OnOk result (IsReady into.new) }
{
    let header = read_header(sections, place)?;
    let declarations = read_table(alloc, sections.abbrev, header.0.table)?;
    let table = Table::new(alloc, declarations)?;
    let context = context_of(profile, number, place, header.0.version);
    read_behind(alloc, sections, context, header, &table, into)
}

/// A unit whose bases are not known yet.
fn context_of(profile: Profile, number: u32, place: u64, version: u16) -> UnitContext
    requires { place < 2 ^ 32 }
    ensures { result ≡ context_in profile number place version None }
{
    UnitContext {
        profile,
        unit: number,
        place: place as u32,
        version,
        bases: None,
    }
}

/// Reads what is behind the header of a unit whose bases are not known yet, and puts its entries behind those before.
/// Answers the place behind the unit, too.
fn read_behind<'a>(
    alloc: Global,
    sections: &Sections<'a>,
    context: UnitContext,
    header: (Header, Cursor<'a>),
    table: &Table,
    parsed: &mut Parsed,
) -> Result<(InUnit, u64), ReadError>
    requires unit { context.unit < ANY_UNIT }
    requires inside { context.place ≤ length sections.now.info.now }
    requires small { IsSmall header.1 }
    requires ready { IsReady parsed.old }
    ensures read { Gives (λ unit. ((unit.0, parsed_seen parsed.new), unit.1)) result (unit_behind (bytes_in sections.now) context header.entry table.now (parsed_seen parsed.old)) }
    ensures end { IfOk result (λ unit. unit.1 ≡ header.entry.0.end) }
    ensures ready { OnOk result (IsReady parsed.new) }
{
    let (header, mut cursor) = header;
    let start = info_cursor(sections, u64::from(context.place));
    let bases = find_bases(alloc, &start, &cursor, sections, context, table, parsed)?;
    let context = UnitContext {
        profile: context.profile,
        unit: context.unit,
        place: context.place,
        version: context.version,
        bases: Some(bases),
    };
    let first = read_tree(alloc, &start, &mut cursor, sections, context, table, parsed)?;
    read_zeros(&start, &mut cursor)?;
    Ok((unit_of(context.version, first, &parsed.built), header.end))
}

/// Reads the zero bytes up to the end of the unit that begins at `start`.
#[tactic(auto, unfolding(crate::specs::Unit::zeros_at))]
fn read_zeros(start: &Cursor, cursor: &mut Cursor) -> Result<(), Fault>
    ensures { Finds (λ u. u) result (zeros_at start.now cursor.old) }
{
    let others = cursor.skip(cursor.left())?;
    if !are_zeros(others) {
        return Err(start.fault(Kind::BadUnit));
    }
    Ok(())
}

fn are_zeros(bytes: &[u8]) -> bool
    ensures { result ≡ list_all is_zero bytes.now }
{
    bytes.iter().all(|b| *b == 0)
}

/// The unit of a version whose entries are those from `first` on: its root, and what follows.
fn unit_of(version: u16, first: u32, built: &Builder) -> InUnit
    requires root { first < length built.now.entries }
    requires few { length built.now.entries ≤ MOST_ENTRIES }
    ensures { result ≡ unit_from version first built.now.entries }
{
    let Some(root) = built.get(first as usize) else {
        unreachable!();
    };
    InUnit {
        first,
        count: built.len() as u32 - first,
        version,
        language: language_in(&root),
        lines: None,
    }
}

/// The language that a root's attributes name, 0 where they name none.
fn language_in(root: &RawEntryRef) -> u16
    ensures { result ≡ language_of root.now.attrs }
{
    match root.find(DW_AT_language) {
        Some(attr) => short_of(&attr.value),
        None => 0,
    }
}

/// A constant of 16 bits, or 0. A flag is no constant.
fn short_of(value: &ValueRef) -> u16
    ensures { result ≡ short_in (value_seen value.now) }
{
    match value {
        ValueRef::Number { form, bits } if !is_flag(*form) && *bits < 65536 => *bits as u16,
        _ => 0,
    }
}
