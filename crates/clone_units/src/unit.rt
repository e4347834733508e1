//! One unit of the linked graph.

ghost use Rattle.std.specs.Prelude.{◌≡◌, ◌<◌, length, slice_get, None, Some, IfOk};
ghost use Rattle.std.specs.List.{All};
ghost use Rattle.std.specs.Option.{option_map};
ghost use Rattle.clone_units.specs.Given.{unit_given};
ghost use Rattle.clone_units.specs.Nodes.{IsEntryOf, number_of_object};
ghost use Rattle.clone_units.specs.Units.{Holds, IsUnitIn, IsUnitOf, object_of};
ghost use Rattle.dwarf_types.specs.Sound.{IsSound};

use crate::nodes::{analysis_of, entry_of, row_of, unit_of};
use crate::object::ObjectClone;
use crate::pool::PoolClone;
use crate::ranges::ranges_of;
use crate::unit_clone::UnitClone;
use ds_base::NoMemory;
use dwarf_types::{Analysis, Origin, Shape, ShapeUnit, Target};
use std::alloc::Global;

/// A unit of the linked graph, by its number in a shape of the objects.
///
/// The nodes of an object's unit say what their entries say, moved to the linked program; its line table is that of
/// this unit in the object, if there is one; its ranges are the pieces of its subprograms' code, in order and each once.
/// The unit of merged entries has a root of its own, nodes that say what the entries say for which they stand, and a line
/// table with the source files that those name. Versions are those of the shape. Of the analyses only those need be there
/// whose entries the unit's nodes stand for.
pub fn clone_unit<'a>(
    alloc: Global,
    seen: &'a [Analysis],
    shape: &'a Shape,
    unit: u32,
) -> Result<UnitClone<'a>, NoMemory>
    requires unit { unit < length shape.now.units }
    requires holds { Holds seen.now shape.now unit }
    ensures { IfOk result (λ clone. IsUnitIn seen.now shape.now unit (unit_given clone)) }
{
    match object_of(shape, unit) {
        Some(object) => {
            let clone = unit_of_object(alloc, seen, shape, unit, object as usize)?;
            Ok(UnitClone::Object(clone))
        }
        None => {
            let clone = unit_of_pool(alloc, seen, shape, unit)?;
            Ok(UnitClone::Pool(clone))
        }
    }
}

/// A unit of one object.
fn unit_of_object<'a>(
    alloc: Global,
    seen: &'a [Analysis],
    shape: &'a Shape,
    unit: u32,
    object: usize,
) -> Result<ObjectClone<'a>, NoMemory>
    requires unit { unit < length shape.now.units }
    requires holds { Holds seen.now shape.now unit }
    requires object { object_of shape.now unit ≡ Some object }
    ensures { IfOk result (IsUnitIn seen.now shape.now unit) }
{
    let nodes = nodes_in(shape, unit);
    let made = unit_of_entry(
        alloc,
        analysis_of(seen, object),
        row_of(shape.images.as_slice(), object),
        row_of(shape.plain.as_slice(), object),
        nodes[0].entry,
        nodes,
    )?;
    Ok(made)
}

/// The unit of merged entries.
fn unit_of_pool<'a>(
    alloc: Global,
    seen: &'a [Analysis],
    shape: &'a Shape,
    unit: u32,
) -> Result<PoolClone<'a>, NoMemory>
    requires unit { unit < length shape.now.units }
    requires holds { Holds seen.now shape.now unit }
    requires pool { object_of shape.now unit ≡ None }
    ensures { IfOk result (IsUnitIn seen.now shape.now unit) }
{
    let pool = unit_in(shape, unit);
    let made = PoolClone::new(
        alloc,
        seen,
        shape.images.as_slice(),
        pool.version,
        pool.nodes.as_slice(),
    )?;
    Ok(made)
}

/// The nodes of a unit of a shape.
fn nodes_in(shape: &Shape, unit: u32) -> &[Origin]
    requires { unit < length shape.now.units }
    ensures { option_map (λ unit. unit.nodes) (slice_get shape.now.units unit) ≡ Some result.now }
{
    unit_in(shape, unit).nodes.as_slice()
}

/// A unit of a shape.
fn unit_in(shape: &Shape, unit: u32) -> &ShapeUnit
    requires { unit < length shape.now.units }
    ensures { slice_get shape.now.units unit ≡ Some result.now }
{
    &shape.units.as_slice()[unit as usize]
}

/// The number of a unit's object among those of its shape, counted from 0; none of the unit of merged entries.
pub fn object_of(shape: &Shape, unit: u32) -> Option<u32>
    ensures { result ≡ object_of shape.now unit }
{
    let unit = shape.units.get(unit as usize)?;
    let root = unit.nodes.get(0)?;
    number_of_object(*root)
}

/// The number of a node's object, counted from 0.
fn number_of_object(node: Origin) -> Option<u32>
    ensures { result ≡ number_of_object node }
{
    if node.object == 0 {
        return None;
    }
    Some(node.object - 1)
}

/// The unit of an object in which entry `k` stands.
fn unit_of_entry<'a>(
    alloc: Global,
    own: &'a Analysis,
    images: &'a [Option<Target>],
    plain: &[Option<u32>],
    k: u32,
    origins: &'a [Origin],
) -> Result<ObjectClone<'a>, NoMemory>
    requires sound { IsSound own.now }
    requires inside { k < length own.now.entries }
    requires images { length images.now ≡ length own.now.entries }
    requires plain { length plain.now ≡ length own.now.entries }
    requires named { All (IsEntryOf own.now) origins.now }
    ensures { IfOk result (IsUnitOf own.now images.now plain.now k origins.now) }
{
    let u = entry_of(own, k).unit();
    let ranges = ranges_of(alloc, own, plain, u)?;
    Ok(ObjectClone::new(own, images, unit_of(own, u), origins, ranges))
}
