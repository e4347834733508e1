//! Values of attributes, moved to the linked program.

ghost use Rattle.std.specs.Prelude.{◌≡◌, ◌<◌, ◌&&◌, not, Some, None, length, if◌then◌else◌, IfOk};
ghost use Rattle.std.specs.List.{All, filter_map};
ghost use Rattle.std.specs.Option.{option_map};
ghost use Rattle.clone_values.specs.Images.{OpAmong, ValueAmong, image_at};
ghost use Rattle.dwarf_types.specs.declared.graph.OutValue.TheVariants as out;
ghost use Rattle.dwarf_types.specs.LinkedExpressions.{parts_of};
ghost use Rattle.dwarf_types.specs.Forms.{is_flag};
ghost use Rattle.dwarf_types.specs.LinkedValues.{all_move, location_written, loses_low_pc, unless_empty, value_written};
ghost use Rattle.dwarf_types.specs.Moves.{address_moved};
ghost use Rattle.dwarf_types.specs.Seen.{attr_seen, location_seen};
ghost use Rattle.unit_source.specs.Given.{value_given};

use crate::expression::parts_of;
use crate::images::image_at;
use ds_base::dwarf::DW_AT_high_pc;
use ds_base::{List, NoMemory};
use dwarf_types::{
    AttrRef, EntryRef, LocationRef, LocationsRef, OpsRef, OutLocation, Span, Target, ValueRef,
    is_flag,
};
use liveness::{address_moved, all_fields_moved, low_pc_moves};
use std::alloc::Global;
use unit_source::{CowList, OutValueRef};

/// What an attribute of an entry says where it is written; none where it is dropped.
pub(crate) fn value_written<'a>(
    alloc: Global,
    images: &[Option<Target>],
    entry: &EntryRef<'a>,
    attr: &AttrRef<'a>,
) -> Result<Option<OutValueRef<'a>>, NoMemory>
    requires among { ValueAmong (length images.now) (attr_seen attr.now).value }
    ensures { IfOk result (λ it. option_map value_given it ≡ value_written (image_at images.now) entry.now (attr_seen attr.now) (attr_seen attr.now).value) }
{
    match &attr.value {
        ValueRef::Address(_) => Ok(address_written(entry.tag(), attr)),
        ValueRef::Text(text) => Ok(Some(OutValueRef::Text(*text))),
        ValueRef::Number { form, bits } => Ok(number_written(entry, attr, *form, *bits)),
        ValueRef::Wide(bytes) if loses_low_pc(entry, attr) => Ok(None),
        ValueRef::Wide(bytes) => Ok(Some(OutValueRef::Wide(*bytes))),
        ValueRef::Block { form, bytes } => Ok(Some(OutValueRef::Block {
            form: *form,
            bytes: *bytes,
        })),
        ValueRef::Expr(ops) => expression_written(alloc, images, ops),
        ValueRef::Ref(k) => Ok(reference_written(images, *k)),
        ValueRef::Ranges(spans) => Ok(ranges_written(*spans)),
        ValueRef::Locations(items) => locations_written(alloc, images, items),
        ValueRef::Lines => Ok(Some(OutValueRef::Lines)),
        ValueRef::Offset(_) => Ok(None),
    }
}

/// An address, where it moved.
fn address_written<'a>(tag: u16, attr: &AttrRef<'a>) -> Option<OutValueRef<'a>>
    ensures { option_map value_given result ≡ option_map (λ n. out.Address n) (address_moved tag (attr_seen attr.now)) }
{
    let address = address_moved(tag, attr)?;
    Some(OutValueRef::Address(address))
}

/// A number, where it is no length that goes with its low_pc.
fn number_written<'a>(
    entry: &EntryRef<'a>,
    attr: &AttrRef<'a>,
    form: u16,
    bits: u64,
) -> Option<OutValueRef<'a>>
    ensures { option_map value_given result ≡ (if not (is_flag form) && loses_low_pc entry.now (attr_seen attr.now) then None else Some (out.Number form bits)) }
{
    if !is_flag(form) && loses_low_pc(entry, attr) {
        return None;
    }
    Some(OutValueRef::Number { form, bits })
}

/// Whether an attribute of class constant is a length that goes with its low_pc.
fn loses_low_pc(entry: &EntryRef, attr: &AttrRef) -> bool
    ensures { result ≡ loses_low_pc entry.now (attr_seen attr.now) }
{
    attr.name == DW_AT_high_pc && !low_pc_moves(entry)
}

/// An expression, where its addresses moved.
fn expression_written<'a>(
    alloc: Global,
    images: &[Option<Target>],
    ops: &OpsRef<'a>,
) -> Result<Option<OutValueRef<'a>>, NoMemory>
    requires among { All (OpAmong (length images.now)) ops.now }
    ensures { IfOk result (λ it. option_map value_given it ≡ (if all_move ops.now then Some (out.Expr (parts_of (image_at images.now) ops.now)) else None)) }
{
    if !all_fields_moved(ops) {
        return Ok(None);
    }
    let parts = parts_of(alloc, images, ops)?;
    Ok(Some(OutValueRef::Expr(CowList::Owned(parts))))
}

/// A reference, where its entry is written.
fn reference_written<'a>(images: &[Option<Target>], k: u32) -> Option<OutValueRef<'a>>
    requires { k < length images.now }
    ensures { option_map value_given result ≡ option_map (λ target. out.Ref target) (image_at images.now k) }
{
    let target = image_at(images, k)?;
    Some(OutValueRef::Ref(target))
}

/// A range list, where a piece is left of it.
fn ranges_written(spans: &[Span]) -> Option<OutValueRef<'_>>
    ensures { option_map value_given result ≡ unless_empty (λ list. out.Ranges list) spans.now }
{
    if spans.is_empty() {
        return None;
    }
    Some(OutValueRef::Ranges(spans))
}

/// A location list, where an item is left of it.
fn locations_written<'a>(
    alloc: Global,
    images: &[Option<Target>],
    items: &LocationsRef<'a>,
) -> Result<Option<OutValueRef<'a>>, NoMemory>
    requires among { All (λ item. All (OpAmong (length images.now)) item.ops) items.now }
    ensures { IfOk result (λ it. option_map value_given it ≡ unless_empty (λ list. out.Locations list) (filter_map (location_written (image_at images.now)) items.now)) }
{
    let locations = items_written(alloc, images, items)?;
    if locations.is_empty() {
        return Ok(None);
    }
    Ok(Some(OutValueRef::Locations(CowList::Owned(locations))))
}

/// The items of a location list that are left.
fn items_written(
    alloc: Global,
    images: &[Option<Target>],
    items: &LocationsRef,
) -> Result<List<OutLocation>, NoMemory>
    requires among { All (λ item. All (OpAmong (length images.now)) item.ops) items.now }
    ensures { IfOk result (λ locations. locations ≡ filter_map (location_written (image_at images.now)) items.now) }
{
    let mut locations = List::with_capacity(alloc, items.len())?;
    for k in 0..items.len() {
        if let Some(location) = item_written(alloc, images, &items.item(k))? {
            locations.push(location)?;
        }
    }
    Ok(locations)
}

/// An item of a location list, where the addresses of its expression moved.
fn item_written(
    alloc: Global,
    images: &[Option<Target>],
    item: &LocationRef,
) -> Result<Option<OutLocation>, NoMemory>
    requires among { All (OpAmong (length images.now)) (location_seen item.now).ops }
    ensures { IfOk result (λ it. it ≡ location_written (image_at images.now) (location_seen item.now)) }
{
    if !all_fields_moved(&item.ops) {
        return Ok(None);
    }
    let parts = parts_of(alloc, images, &item.ops)?;
    Ok(Some(OutLocation {
        span: item.span,
        parts,
    }))
}
