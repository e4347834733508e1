//! One unit of an object: the nodes of its entries.

ghost use Rattle.std.specs.Prelude.{◌≡◌, ◌<◌, ◌≤◌, ◌^◌, ◌++◌, drop, length, map, slice_get, IfSome, OnOk, IfOk};
ghost use Rattle.std.specs.Option.{option_to_list};
ghost use Rattle.dwarf_types.specs.Sound.{IsSound};
ghost use Rattle.link_graph.specs.Passes.{entries_of, images_in_unit, marked, node_in, nodes_in, plain_in_unit, target_in, unit_at};

use crate::entry::add_entry;
use crate::object::ObjectShape;
use ds_base::{BitRow, List, NoMemory};
use dwarf_types::{Analysis, Origin, ShapeUnit, Target};
use std::alloc::Global;

/// Puts unit `u` of an object, if one of its entries is kept, behind those before it, and the nodes of its entries behind those
/// of the entries before.
///
/// `object` is the object's number from 0.
pub(crate) fn add_unit(
    alloc: Global,
    object: u32,
    seen: &Analysis,
    live: &BitRow,
    u: usize,
    own: &mut ObjectShape,
) -> Result<(), NoMemory>
    requires few { object < 2 ^ 16 }
    requires sound { IsSound seen.now }
    requires marked { length live.now ≡ length seen.now.entries }
    requires unit { u < length seen.now.units }
    requires numbered { length own.old.units.items < 2 ^ 32 }
    requires begun { IfSome (slice_get seen.now.units u) (λ unit. length own.old.images ≡ unit.first) }
    requires same { own.old.plain ≡ map node_in own.old.images }
    ensures units { OnOk result (own.new.units.items ≡ own.old.units.items ++ option_to_list (unit_at object (marked seen.now live.now) u)) }
    ensures images { OnOk result (own.new.images ≡ own.old.images ++ images_in_unit (length own.old.units.items) (marked seen.now live.now) u (entries_of (marked seen.now live.now) u)) }
    ensures same { OnOk result (own.new.plain ≡ map node_in own.new.images) }
{
    let number = own.units.len() as u32;
    let nodes = nodes_in(alloc, object, seen, live, u, &mut own.plain)?;
    let begun = own.images.len();
    add_images(number, &own.plain.as_slice()[begun..], &mut own.images)?;
    if !nodes.is_empty() {
        own.units.push(ShapeUnit {
            version: seen.units.as_slice()[u].version,
            nodes,
        })?;
    }
    Ok(())
}

/// Puts where references to entries of the unit of a number lead behind those of the entries before.
fn add_images(
    number: u32,
    plain: &[Option<u32>],
    images: &mut List<Option<Target>>,
) -> Result<(), NoMemory>
    ensures { OnOk result (images.new ≡ images.old ++ map (target_in number) plain.now) }
{
    for node in plain {
        images.push(target_in(number, *node))?;
    }
    Ok(())
}

/// A node of the unit of a number.
pub(crate) fn target_in(unit: u32, node: Option<u32>) -> Option<Target>
    ensures { result ≡ target_in unit node }
{
    let node = node?;
    Some(Target { unit, node })
}

/// The nodes of the entries of unit `u` that are kept. Their numbers are put behind those of the entries before.
fn nodes_in(
    alloc: Global,
    object: u32,
    seen: &Analysis,
    live: &BitRow,
    u: usize,
    plain: &mut List<Option<u32>>,
) -> Result<List<Origin>, NoMemory>
    requires few { object < 2 ^ 16 }
    requires sound { IsSound seen.now }
    requires marked { length live.now ≡ length seen.now.entries }
    requires unit { u < length seen.now.units }
    requires begun { IfSome (slice_get seen.now.units u) (λ unit. length plain.old ≡ unit.first) }
    ensures nodes { IfOk result (λ nodes. nodes ≡ nodes_in object (marked seen.now live.now) u (entries_of (marked seen.now live.now) u)) }
    ensures plain { OnOk result (plain.new ≡ plain.old ++ plain_in_unit (marked seen.now live.now) u (entries_of (marked seen.now live.now) u)) }
{
    let unit = &seen.units.as_slice()[u];
    let mut nodes = List::new(alloc);
    for n in 0..unit.count {
        let k = unit.first + n;
        add_entry(
            object + 1,
            k,
            &seen.entries.entry(k as usize),
            live.get(k),
            &mut nodes,
            plain,
        )?;
    }
    Ok(nodes)
}
