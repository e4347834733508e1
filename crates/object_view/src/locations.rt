//! Location lists (DWARF 4 and 5, section 2.6.2).

ghost use Rattle.std.specs.Prelude.{◌≡◌, ◌<◌, ◌++◌, length, map, OnOk};
ghost use Rattle.std.specs.List.{All};
ghost use Rattle.ds_base.specs.Reading.{Gives};
ghost use Rattle.dwarf_types.specs.declared.value.Value.TheVariants as values;
ghost use Rattle.expr_resolve.specs.Context.{context_in};
ghost use Rattle.object_view.specs.Attributes;
ghost use Rattle.object_view.specs.Ready.{IsReady, IsItem, item_given, items_given};
ghost use Rattle.dwarf_types.specs.SectionBytes.{location_bytes};

use crate::expressions::{ExprRoom, Expressions, locations_context};
use crate::ranges::base_of_unit;
use crate::steps::{Changed, Step};
use ds_base::dwarf::DWARF_5;
use ds_base::{Fault, Kind, NoMemory, ReadError};
use dwarf_types::{Addr, AttrRef, LocationList, OpsRef, RawLocation, Span, ValueRef};
use expr_resolve::{ExprContext, read_expression};
use expr_walk::new_length;
use loc_lists::read_locations;
use moved_parts::span_pieces;
use std::alloc::Global;
use unit_tree::{Meaning, meaning_of_offset};

/// An expression of a location list of version 4 has fewer bytes than this: its length is told in two bytes (DWARF 4,
/// section 2.6.2).
pub(crate) const EXPRESSION_LIMIT: u64 = 1 << 16;

/// The step in which section offsets lead to location lists.
#[derive(Clone, Copy)]
pub(crate) struct LocationLists<'a> {
    pub(crate) expressions: Expressions<'a>,
    /// Of each unit, the address from which its lists count.
    pub(crate) bases: &'a [Addr],
}

impl<'a> Step for LocationLists<'a> {
    ghost use Rattle.std.specs.Prelude.{◌≡◌, ℕ, length};
    ghost use Rattle.expr_resolve.specs.Context.{AreInOrder};
    ghost use Rattle.dwarf_types.specs.SectionBytes.{bytes_in};
    ghost use Rattle.object_view.specs.Attributes.{locations_meant};
    ghost use Rattle.object_view.specs.Seen.{opened_seen};
    ghost use Rattle.object_view.specs.Ready.{IsListedAttr, IsOpen, base_at, locations_seen};

    ghost ready = { λ s. IsOpen (opened_seen s.expressions.object.now) s.expressions.map.now × AreInOrder s.expressions.types.now × (length s.bases.now ≡ length s.expressions.units.now) };

    ghost fits = { λ s unit a. IsListedAttr (bytes_in s.expressions.object.now.sections) s.expressions.units.now unit a };

    ghost meant = { λ s unit a. locations_meant (locations_seen s.expressions unit) (base_at s.bases.now unit) a a.value };

    fn change(
        &self,
        alloc: Global,
        unit: u32,
        attr: &AttrRef<'_>,
        room: &mut ExprRoom,
    ) -> Result<Changed, ReadError> {
        let ValueRef::Offset(place) = &attr.value else {
            return Ok(Changed::Same);
        };
        let Meaning::LocationList = meaning_of_offset(attr.name) else {
            return Ok(Changed::Same);
        };
        let context = locations_context(&self.expressions, unit);
        let base = base_of_unit(self.bases, unit);
        let locations = locations_at(alloc, &context, &base, *place, room)?;
        Ok(Changed::Locations(locations))
    }
}

/// The location list at a place: first the whole list, then item after item.
fn locations_at(
    alloc: Global,
    context: &ExprContext,
    base: &Addr,
    place: u64,
    room: &mut ExprRoom,
) -> Result<LocationList, ReadError>
    requires ready { IsReady (context_in context.now) }
    requires inside { place < length (location_bytes (context_in context.now).sections context.now.version) }
    ensures { Gives (λ items. values.Locations items) result (Attributes.locations_at (context_in context.now) base.now place) }
{
    let items = read_locations(
        alloc,
        context.sections,
        context.relocs,
        context.image,
        place as u32,
        context.version,
        base,
        context.addresses,
        context.addr_base,
    )?;
    locations_of(alloc, context, items.as_slice(), room)
}

/// The pieces of the items of a list, each with its operations.
fn locations_of(
    alloc: Global,
    context: &ExprContext,
    items: &[RawLocation],
    room: &mut ExprRoom,
) -> Result<LocationList, ReadError>
    requires ready { IsReady (context_in context.now) }
    requires items { All IsItem items.now }
    ensures { Gives (λ locations. locations) result (items_given (context_in context.now) items.now) }
{
    let mut locations = LocationList::new(alloc);
    for item in items {
        add_item(alloc, context, item, room, &mut locations)?;
    }
    Ok(locations)
}

/// Puts the pieces of an item last, each with its operations.
fn add_item(
    alloc: Global,
    context: &ExprContext,
    item: &RawLocation,
    room: &mut ExprRoom,
    locations: &mut LocationList,
) -> Result<(), ReadError>
    requires ready { IsReady (context_in context.now) }
    requires item { IsItem item.now }
    ensures { Gives (λ _. locations.new) result (item_given (context_in context.now) locations.old item.now) }
{
    let bytes = item.bytes.as_slice();
    read_expression(
        context,
        bytes,
        item.first,
        &mut room.stored,
        &mut room.meant,
    )?;
    let ops = room.meant.as_ref();
    if context.version != DWARF_5 && new_length(&ops) >= EXPRESSION_LIMIT {
        return Err(ReadError::Faulty(Fault {
            kind: Kind::LongExpression,
            section: context.part,
            place: item.place,
        }));
    }
    let pieces = span_pieces(alloc, context.map, &item.span)?;
    add_pieces(pieces.as_slice(), &ops, locations)?;
    Ok(())
}

/// Puts the pieces of a span last, each with these operations.
fn add_pieces(
    pieces: &[Span],
    ops: &OpsRef<'_>,
    locations: &mut LocationList,
) -> Result<(), NoMemory>
    ensures { OnOk result (locations.new ≡ locations.old ++ map (λ span. record { span = span; ops = ops.now }) pieces.now) }
{
    for span in pieces {
        locations.push(*span, ops)?;
    }
    Ok(())
}
