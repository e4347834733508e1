//! One object: its units that are written, the nodes of its entries, and where references to them lead.

ghost use Rattle.std.specs.Prelude.{◌≡◌, ◌<◌, ◌^◌, length, IfOk};
ghost use Rattle.dwarf_types.specs.Sound.{IsSound};
ghost use Rattle.link_graph.specs.OwnShapes.{IsOwnShape};
ghost use Rattle.link_graph.specs.Passes.{marked};

use crate::unit::add_unit;
use ds_base::{BitRow, List, NoMemory};
use dwarf_types::{Analysis, ShapeUnit, Target};
use std::alloc::Global;

/// What one object gives to the shape of a link. Its units are counted from 0.
#[derive(Drop)]
pub struct ObjectShape {
    /// Its units that are written.
    pub units: Vec<ShapeUnit>,
    /// Of each entry the number of its node in its own unit.
    pub plain: List<Option<u32>>,
    /// Of each entry where a reference to its node in its own unit leads.
    pub images: List<Option<Target>>,
}

/// What an object gives to the shape of a link, by its entries that are kept.
///
/// `object` is the object's number from 0. Where nothing is merged, the entries that are kept are its live ones.
pub fn kept_shape(
    alloc: Global,
    object: u32,
    seen: &Analysis,
    kept: &BitRow,
) -> Result<ObjectShape, NoMemory>
    requires few { object < 2 ^ 16 }
    requires sound { IsSound seen.now }
    requires marked { length kept.now ≡ length seen.now.entries }
    ensures { IfOk result (IsOwnShape object (marked seen.now kept.now)) }
{
    let mut own = ObjectShape {
        units: Vec::new(alloc),
        plain: List::with_capacity(alloc, seen.entries.len())?,
        images: List::with_capacity(alloc, seen.entries.len())?,
    };
    for u in 0..seen.units.len() {
        add_unit(alloc, object, seen, kept, u, &mut own)?;
    }
    Ok(own)
}
