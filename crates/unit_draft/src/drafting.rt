//! A unit that is being drafted.

ghost use Rattle.std.specs.Prelude.{◌≡◌, []};
ghost use Rattle.patches.specs.Filling.{Filling, filled};

use ds_base::Bytes;
use patches::Buffer;
use std::alloc::Global;
use text_pool::Naming;

/// What there is of a unit's parts so far.
#[derive(Drop)]
pub(crate) struct Drafting<'a> {
    pub(crate) info: Buffer,
    pub(crate) locations: Buffer,
    pub(crate) ranges: Bytes,
    pub(crate) names: Naming<'a>,
    pub(crate) scratch: Scratch,
}

/// Where expressions are written, since their length stands before them. One serves all of a unit.
#[derive(Drop)]
pub(crate) struct Scratch {
    /// The last expression.
    pub(crate) expression: Buffer,
    /// The last expression inside an entry value.
    pub(crate) inner: Buffer,
}

/// Bytes of an entry for which room is taken ahead: as many as it has on average, and a few more.
const BYTES_AN_ENTRY: usize = 24;

impl<'a> Drafting<'a> {
    /// Nothing so far, and room for the entries of so many nodes with a hole of each kind, if the allocator has it.
    pub(crate) fn new(alloc: Global, nodes: usize) -> Drafting<'a>
        ensures info { (f : Filling) → filled result.info f ≡ [] }
        ensures locations { (f : Filling) → filled result.locations f ≡ [] }
        ensures ranges { result.ranges ≡ [] }
        ensures names { result.names ≡ [] }
    {
        let mut info = Buffer::new(alloc);
        let _ = info.reserve(nodes.saturating_mul(BYTES_AN_ENTRY), nodes);
        Drafting {
            info,
            locations: Buffer::new(alloc),
            ranges: Bytes::new(alloc),
            names: Naming::new(alloc),
            scratch: Scratch {
                expression: Buffer::new(alloc),
                inner: Buffer::new(alloc),
            },
        }
    }
}
