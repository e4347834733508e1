//! What is linked of a program, what is counted of it, and what is drafted.

use ds_base::{Bytes, List};
use dwarf_types::OutFrames;
use type_pool::ClosedPool;
use unit_draft::Draft;
use work_share::Rooming;

/// What a link counted.
#[derive(Clone, Copy, Debug)]
pub struct Counts {
    /// The objects of the debug map.
    pub objects: u64,
    /// The entries of all objects.
    pub entries: u64,
    /// The live entries among them.
    pub live: u64,
    /// The live entries that are merged with others of their name.
    pub pooled: u64,
    /// The names of these.
    pub names: u64,
    /// The nodes of the linked graph, the roots of its units among them.
    pub nodes: u64,
    /// The bytes of the image.
    pub bytes: u64,
}

/// What is linked of a program.
#[derive(Drop)]
pub struct Linked {
    /// The file, with the dSYM image behind what stood in it before.
    pub file: Bytes,
    pub counts: Counts,
    /// The closed table in which names that are merged were bid for.
    pub closed: ClosedPool,
}

/// What is counted of the objects of a link.
#[derive(Clone, Copy)]
pub(crate) struct Counted {
    pub objects: u64,
    pub entries: u64,
    pub live: u64,
    pub pooled: u64,
    pub names: u64,
}

/// All that is drafted of a link.
#[derive(Drop)]
pub(crate) struct Drafted {
    /// A draft of each unit, in the order of the units.
    pub drafts: List<Draft>,
    /// Memory for their string section, which a thread takes.
    pub texts: Rooming,
    /// The frames of all objects.
    pub frames: OutFrames,
    pub counted: Counted,
    pub closed: ClosedPool,
}
