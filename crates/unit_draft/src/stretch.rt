//! A stretch of a unit's nodes, ready to be appended.

ghost use Rattle.std.specs.Prelude.{[]};
ghost use Rattle.unit_draft.specs.Stretches.{IsStretch};

use std::alloc::Global;
use unit_source::OutAttrRef;

/// What is known of a node before its entry is appended, beside its attributes.
#[derive(Clone, Copy)]
pub(crate) struct Prepared {
    /// The code of what declares it.
    pub(crate) code: u32,
    /// How many lists of siblings end behind it.
    pub(crate) ended: u32,
    /// How many attributes it has.
    pub(crate) attrs: usize,
}

/// Nodes that stand one behind the other. One serves many stretches, so that no node has memory of its own.
#[derive(Drop)]
pub(crate) struct Stretch<'a> {
    /// The attributes of all its nodes, in order.
    pub(crate) attrs: Vec<OutAttrRef<'a>>,
    pub(crate) nodes: Vec<Prepared>,
}

impl<'a> Stretch<'a> {
    /// No nodes. It asks the allocator for nothing.
    pub(crate) fn new(alloc: Global) -> Stretch<'a>
        ensures { IsStretch [] result }
    {
        Stretch {
            attrs: Vec::new(alloc),
            nodes: Vec::new(alloc),
        }
    }

    /// Lets its nodes go.
    pub(crate) fn clear(&mut self)
        ensures { IsStretch [] self.new }
    {
        self.attrs.clear();
        self.nodes.clear();
    }
}
