//! A unit of an object.

ghost use Rattle.std.specs.Prelude.{◌≡◌, ◌<◌, ◌++◌, Some, None, All, length, map, slice_get, IfOk, OnOk};
ghost use Rattle.std.specs.List.{filter_map};
ghost use Rattle.std.specs.Option.{option_copied};
ghost use Rattle.clone_values.specs.Images.{NamesAmong};
ghost use Rattle.clone_units.specs.Nodes.{IsEntryOf, node_at};
ghost use Rattle.clone_units.specs.Units.{unit_with};
ghost use Rattle.unit_source.specs.Given.{node_given};

use crate::nodes::{node_of, origin_at};
use ds_base::{List, NoMemory};
use dwarf_types::{Analysis, InUnit, Origin, OutLines, Span, Target};
use std::alloc::Global;
use std::marker::Model;
use unit_source::{NodeHead, OutAttrRef, UnitSource};

/// A unit of an object, which contracts see as the unit that is written.
#[derive(Drop)]
pub struct ObjectClone<'a> {
    /// Its object.
    own: &'a Analysis,
    /// Where references to the entries of its object lead, entry by entry.
    images: &'a [Option<Target>],
    /// The unit as it stands in the object.
    unit: &'a InUnit,
    /// The entries for which its nodes stand.
    origins: &'a [Origin],
    ranges: List<Span>,
}

impl<'a> Model for ObjectClone<'a> {
    ghost use Rattle.std.specs.Prelude.{All, length};
    ghost use Rattle.dwarf_types.specs.declared.graph.OutUnit.{OutUnit as AUnit};

    ghost Value = { AUnit };

    ghost use Rattle.clone_units.specs.Nodes.{IsEntryOf};
    ghost use Rattle.clone_units.specs.Units.{unit_with};
    ghost use Rattle.clone_values.specs.Images.{NamesAmong};

    ghost view = { λ c. unit_with c.own.now c.images.now c.unit.now c.ranges c.origins.now };

    ghost invariant = { λ c. All (IsEntryOf c.own.now) c.origins.now × All (NamesAmong (length c.images.now)) c.own.now.entries };
}

impl<'a> ObjectClone<'a> {
    pub(crate) fn new(
        own: &'a Analysis,
        images: &'a [Option<Target>],
        unit: &'a InUnit,
        origins: &'a [Origin],
        ranges: List<Span>,
    ) -> ObjectClone<'a>
        requires named { All (IsEntryOf own.now) origins.now }
        requires among { All (NamesAmong (length images.now)) own.now.entries }
        ensures { result ≡ unit_with own.now images.now unit.now ranges origins.now }
    {
        ObjectClone {
            own,
            images,
            unit,
            origins,
            ranges,
        }
    }
}

impl<'a> UnitSource for ObjectClone<'a> {
    ghost unit = { λ unit. unit };

    fn version(&self) -> u16 {
        self.unit.version
    }

    fn len(&self) -> usize {
        self.origins.len()
    }

    fn parent(&self, k: usize) -> Option<u32> {
        origin_at(self.origins, k).parent
    }

    fn node<'s>(
        &'s self,
        alloc: Global,
        k: usize,
        attrs: &mut Vec<OutAttrRef<'s>>,
    ) -> Result<NodeHead, NoMemory> {
        let origin = origin_at(self.origins, k);
        let spans = self.ranges.as_slice();
        node_of(alloc, self.own, self.images, spans, origin, attrs)
    }

    fn lines(&self) -> Option<&OutLines> {
        self.unit.lines.as_ref()
    }

    fn ranges(&self) -> &[Span] {
        self.ranges.as_slice()
    }
}
