//! What gives a unit.

use crate::given::OutAttrRef;
use ds_base::NoMemory;
use dwarf_types::{OutLines, Span};
use std::alloc::Global;

/// A node but for its attributes.
#[derive(Clone, Copy, Debug)]
pub struct NodeHead {
    /// The number of the parent among the unit's nodes, counted from 0; none at the root.
    pub parent: Option<u32>,
    /// The `DW_TAG` number.
    pub tag: u16,
}

/// What gives an output unit, node by node. `unit` is the unit that it gives.
pub trait UnitSource {
    ghost use Rattle.std.specs.Prelude.{◌≡◌, ◌<◌, length, slice_get, Some, IfOk};
    ghost use Rattle.std.specs.Option.{option_copied};
    ghost use Rattle.dwarf_types.specs.declared.graph.Node.{Node as ANode};
    ghost use Rattle.dwarf_types.specs.declared.graph.OutUnit.{OutUnit as AUnit};
    ghost use Rattle.unit_source.specs.Given.{node_given};

    ghost unit: { Self → AUnit };

    /// The version of DWARF in which it is written.
    fn version(&self) -> u16
        ensures { result ≡ (unit self.now).version };

    /// How many nodes it has.
    fn len(&self) -> usize
        ensures { result ≡ length (unit self.now).nodes };

    /// The number of a node's parent among the nodes, counted from 0; none at the root.
    fn parent(&self, k: usize) -> Option<u32>
        requires { k < length (unit self.now).nodes }
        ensures { (n : ANode) → slice_get (unit self.now).nodes k ≡ Some n → result ≡ n.parent };

    /// A node, whose attributes take the place of those in `attrs`.
    fn node<'a>(
        &'a self,
        alloc: Global,
        k: usize,
        attrs: &mut Vec<OutAttrRef<'a>>,
    ) -> Result<NodeHead, NoMemory>
        requires { k < length (unit self.now).nodes }
        ensures { IfOk result (λ head. slice_get (unit self.now).nodes k ≡ Some (node_given head attrs.new.items)) };

    /// Its line table, where the root has one.
    fn lines(&self) -> Option<&OutLines>
        ensures { option_copied result ≡ (unit self.now).lines };

    /// The addresses of its code in the linked program.
    fn ranges(&self) -> &[Span]
        ensures { result.now ≡ (unit self.now).ranges };
}
