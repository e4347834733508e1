//! Range lists (DWARF 4 and 5, section 2.17.3).

ghost use Rattle.std.specs.Prelude.{◌≡◌, ◌<◌, map, length, slice_get, IfOk};
ghost use Rattle.std.specs.List.{All, filter_map};
ghost use Rattle.std.specs.Option.{option_map_or};
ghost use Rattle.ds_base.specs.Reading.{Gives};
ghost use Rattle.dwarf_types.specs.SectionBytes.{bytes_in, range_bytes};
ghost use Rattle.dwarf_types.specs.Seen.{attr_seen};
ghost use Rattle.dwarf_types.specs.declared.address.Addr.TheVariants as addrs;
ghost use Rattle.dwarf_types.specs.declared.value.Value.TheVariants as values;
ghost use Rattle.object_view.specs.Attributes;
ghost use Rattle.object_view.specs.Seen.{opened_seen};
ghost use Rattle.object_view.specs.Ready.{HasRoot, IsOpen, base_at};

use crate::expressions::{ExprRoom, unit_at};
use crate::steps::{Changed, Step};
use crate::units::UnitContext;
use crate::view::ObjectView;
use addr_map::AddrMap;
use ds_base::dwarf::{DW_AT_low_pc, DWARF_5};
use ds_base::{List, NoMemory, ReadError};
use dwarf_types::{Addr, AttrRef, Entries, EntryRef, InUnit, Span, ValueRef};
use moved_parts::move_spans;
use object_read::DebugRelocs;
use range_lists::read_ranges;
use reloc_table::Relocs;
use std::alloc::Global;
use unit_tree::{Meaning, meaning_of_offset};

/// The step in which section offsets lead to range lists.
#[derive(Clone, Copy)]
pub(crate) struct RangeLists<'a> {
    pub(crate) object: &'a ObjectView<'a>,
    pub(crate) map: &'a AddrMap,
    /// Of each unit, what its values are understood by.
    pub(crate) units: &'a [UnitContext],
    /// Of each unit, the address from which its lists count.
    pub(crate) bases: &'a [Addr],
}

impl<'a> Step for RangeLists<'a> {
    ghost use Rattle.std.specs.Prelude.{◌≡◌, length};
    ghost use Rattle.dwarf_types.specs.SectionBytes.{bytes_in};
    ghost use Rattle.object_view.specs.Attributes.{ranges_meant};
    ghost use Rattle.object_view.specs.Seen.{opened_seen};
    ghost use Rattle.object_view.specs.Ready.{IsListedAttr, IsOpen, base_at, context_among};

    ghost ready = { λ s. IsOpen (opened_seen s.object.now) s.map.now × (length s.bases.now ≡ length s.units.now) };

    ghost fits = { λ s unit a. IsListedAttr (bytes_in s.object.now.sections) s.units.now unit a };

    ghost meant = { λ s unit a. ranges_meant (opened_seen s.object.now) s.map.now (context_among s.units.now unit) (base_at s.bases.now unit) a a.value };

    fn change(
        &self,
        alloc: Global,
        unit: u32,
        attr: &AttrRef<'_>,
        _room: &mut ExprRoom,
    ) -> Result<Changed, ReadError> {
        let ValueRef::Offset(place) = &attr.value else {
            return Ok(Changed::Same);
        };
        let Meaning::RangeList = meaning_of_offset(attr.name) else {
            return Ok(Changed::Same);
        };
        let base = base_of_unit(self.bases, unit);
        let context = unit_at(self.units, unit);
        let spans = ranges_at(alloc, self.object, self.map, &context, &base, *place)?;
        Ok(Changed::Ranges(spans))
    }
}

/// The range list at a place, moved.
fn ranges_at(
    alloc: Global,
    object: &ObjectView,
    map: &AddrMap,
    unit: &UnitContext,
    base: &Addr,
    place: u64,
) -> Result<List<Span>, ReadError>
    requires open { IsOpen (opened_seen object.now) map.now }
    requires inside { place < length (range_bytes (bytes_in object.now.sections) unit.now.version) }
    ensures { Gives (λ spans. values.Ranges spans) result (Attributes.ranges_at (opened_seen object.now) map.now unit.now base.now place) }
{
    let spans = read_ranges(
        alloc,
        &object.sections,
        ranges_relocs(&object.relocs, unit.version),
        object.image,
        place as u32,
        unit.version,
        base,
        &object.relocs.addr,
        unit.addr_base,
    )?;
    Ok(move_spans(alloc, map, spans.as_slice())?)
}

/// The relocations of the section in which the range lists of a version stand.
fn ranges_relocs<'a>(relocs: &'a DebugRelocs, version: u16) -> &'a Relocs
    ensures { result.now ≡ Attributes.ranges_relocs relocs.now version }
{
    if version == DWARF_5 {
        &relocs.rnglists
    } else {
        &relocs.ranges
    }
}

/// The address from which the lists of the unit of this number count.
pub(crate) fn base_of_unit(bases: &[Addr], unit: u32) -> Addr
    requires { unit < length bases.now }
    ensures { result ≡ base_at bases.now unit }
{
    bases[unit as usize]
}

/// Of each unit, the address from which its lists count.
pub(crate) fn unit_bases(
    alloc: Global,
    units: &[InUnit],
    entries: &Entries,
) -> Result<List<Addr>, NoMemory>
    requires { All (HasRoot (length entries.now)) units.now }
    ensures { IfOk result (λ bases. bases ≡ map (λ u. option_map_or Attributes.base_of (slice_get entries.now u.first) (addrs.Fixed 0)) units.now) }
{
    let mut bases = List::new(alloc);
    for unit in units {
        bases.push(unit_base(entries, unit))?;
    }
    Ok(bases)
}

/// The address from which the lists of a unit count.
fn unit_base(entries: &Entries, unit: &InUnit) -> Addr
    requires { HasRoot (length entries.now) unit.now }
    ensures { result ≡ option_map_or Attributes.base_of (slice_get entries.now unit.now.first) (addrs.Fixed 0) }
{
    base_of(&entries.entry(unit.first as usize))
}

/// The first low_pc of class address of a root, else 0.
fn base_of(root: &EntryRef) -> Addr
    ensures { result ≡ Attributes.base_of root.now }
{
    match first_low_pc(root) {
        Some(at) => at,
        None => Addr::Fixed(0),
    }
}

/// The first low_pc of class address.
fn first_low_pc(root: &EntryRef) -> Option<Addr>
    ensures { result ≡ slice_get (filter_map Attributes.low_pc_in root.now.attrs) 0 }
{
    for j in 0..root.len() {
        if let Some(at) = low_pc_in(&root.attr(j)) {
            return Some(at);
        }
    }
    None
}

/// The address that an attribute tells as low_pc.
fn low_pc_in(attr: &AttrRef<'_>) -> Option<Addr>
    ensures { result ≡ Attributes.low_pc_in (attr_seen attr.now) }
{
    if attr.name != DW_AT_low_pc {
        return None;
    }
    match &attr.value {
        ValueRef::Address(place) => Some(place.at),
        _ => None,
    }
}
