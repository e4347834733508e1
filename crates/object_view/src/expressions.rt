//! What the expressions of an object are understood by.

ghost use Rattle.std.specs.Prelude.{◌≡◌, ◌<◌, length};
ghost use Rattle.expr_resolve.specs.Context.{context_in};
ghost use Rattle.loc_lists.specs.Reading.{location_part};
ghost use Rattle.object_view.specs.Attributes;
ghost use Rattle.object_view.specs.Seen.{opened_seen};
ghost use Rattle.object_view.specs.Ready.{context_among, info_seen, locations_seen};

use crate::units::UnitContext;
use crate::view::ObjectView;
use addr_map::AddrMap;
use ds_base::Part;
use ds_base::dwarf::DWARF_5;
use dwarf_types::Ops;
use expr_resolve::{BaseType, ExprContext};
use object_read::DebugRelocs;
use reloc_table::Relocs;
use std::alloc::Global;

/// The expressions of an object, whatever their unit.
#[derive(Clone, Copy)]
pub(crate) struct Expressions<'a> {
    pub(crate) object: &'a ObjectView<'a>,
    pub(crate) map: &'a AddrMap,
    /// The base types of the object, in the order of their places.
    pub(crate) types: &'a [BaseType],
    /// Of each unit, what its values are understood by.
    pub(crate) units: &'a [UnitContext],
}

/// Room for the operations of an expression, so that none is asked for each: as they are stored, and with what they mean.
#[derive(Drop)]
pub(crate) struct ExprRoom {
    pub(crate) stored: Ops,
    pub(crate) meant: Ops,
}

impl ExprRoom {
    pub(crate) fn new(alloc: Global) -> ExprRoom {
        ExprRoom {
            stored: Ops::new(alloc),
            meant: Ops::new(alloc),
        }
    }
}

/// What is known of the unit of a number.
pub(crate) fn unit_at(units: &[UnitContext], unit: u32) -> UnitContext
    requires { unit < length units.now }
    ensures { result ≡ context_among units.now unit }
{
    units[unit as usize]
}

/// Where an expression of `__debug_info` stands, in the unit of this number.
pub(crate) fn info_context<'a>(expressions: &Expressions<'a>, unit: u32) -> ExprContext<'a>
    requires { unit < length expressions.now.units.now }
    ensures { context_in result ≡ info_seen expressions.now unit }
{
    let relocs = &expressions.object.relocs.info;
    context_at(expressions, Part::Info, relocs, unit)
}

/// Where an expression of a location list stands, in the unit of this number.
pub(crate) fn locations_context<'a>(expressions: &Expressions<'a>, unit: u32) -> ExprContext<'a>
    requires { unit < length expressions.now.units.now }
    ensures { context_in result ≡ locations_seen expressions.now unit }
{
    let version = unit_at(expressions.units, unit).version;
    let relocs = locations_relocs(&expressions.object.relocs, version);
    context_at(expressions, locations_part(version), relocs, unit)
}

/// The section in which the location lists of a version stand.
fn locations_part(version: u16) -> Part
    ensures { result ≡ location_part version }
{
    if version == DWARF_5 {
        Part::Loclists
    } else {
        Part::Loc
    }
}

/// The relocations of the section in which the location lists of a version stand.
fn locations_relocs<'a>(relocs: &'a DebugRelocs, version: u16) -> &'a Relocs
    ensures { result.now ≡ Attributes.locations_relocs relocs.now version }
{
    if version == DWARF_5 {
        &relocs.loclists
    } else {
        &relocs.loc
    }
}

/// Where an expression of a part of the file stands, with the relocations of that part, in the unit of this number.
fn context_at<'a>(
    expressions: &Expressions<'a>,
    part: Part,
    relocs: &'a Relocs,
    unit: u32,
) -> ExprContext<'a>
    requires { unit < length expressions.now.units.now }
    ensures { context_in result ≡ Attributes.context_at (opened_seen expressions.now.object.now) expressions.now.map.now expressions.now.types.now part relocs.now unit (context_among expressions.now.units.now unit) }
{
    let context = unit_at(expressions.units, unit);
    ExprContext {
        image: expressions.object.image,
        map: expressions.map,
        bases: expressions.types,
        part,
        relocs,
        unit,
        start: context.start,
        version: context.version,
        sections: &expressions.object.sections,
        addresses: &expressions.object.relocs.addr,
        addr_base: context.addr_base,
    }
}
