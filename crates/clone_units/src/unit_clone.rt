//! What gives a unit of the linked graph.

ghost use Rattle.std.specs.Prelude.{◌≡◌, ◌<◌, length, slice_get, Some, IfOk};
ghost use Rattle.std.specs.Option.{option_copied};
ghost use Rattle.clone_units.specs.Given.{unit_given};
ghost use Rattle.unit_source.specs.Given.{node_given};

use crate::object::ObjectClone;
use crate::pool::PoolClone;
use ds_base::NoMemory;
use dwarf_types::{OutLines, Span};
use std::alloc::Global;
use unit_source::{NodeHead, OutAttrRef, UnitSource};

/// A unit of the linked graph, which makes each node when it is asked for it.
#[derive(Drop)]
pub enum UnitClone<'a> {
    /// A unit of one object.
    Object(ObjectClone<'a>),
    /// The unit of merged entries.
    Pool(PoolClone<'a>),
}

impl<'a> UnitSource for UnitClone<'a> {
    ghost unit = { unit_given };

    fn version(&self) -> u16 {
        match self {
            UnitClone::Object(unit) => unit.version(),
            UnitClone::Pool(unit) => unit.version(),
        }
    }

    fn len(&self) -> usize {
        match self {
            UnitClone::Object(unit) => unit.len(),
            UnitClone::Pool(unit) => unit.len(),
        }
    }

    fn parent(&self, k: usize) -> Option<u32> {
        match self {
            UnitClone::Object(unit) => unit.parent(k),
            UnitClone::Pool(unit) => unit.parent(k),
        }
    }

    fn node<'s>(
        &'s self,
        alloc: Global,
        k: usize,
        attrs: &mut Vec<OutAttrRef<'s>>,
    ) -> Result<NodeHead, NoMemory> {
        match self {
            UnitClone::Object(unit) => unit.node(alloc, k, attrs),
            UnitClone::Pool(unit) => unit.node(alloc, k, attrs),
        }
    }

    fn lines(&self) -> Option<&OutLines> {
        match self {
            UnitClone::Object(unit) => unit.lines(),
            UnitClone::Pool(unit) => unit.lines(),
        }
    }

    fn ranges(&self) -> &[Span] {
        match self {
            UnitClone::Object(unit) => unit.ranges(),
            UnitClone::Pool(unit) => unit.ranges(),
        }
    }
}
