//! The shape of a linked graph: which entry each node stands for, which node each entry has, and where references lead.

use crate::graph::Target;
use ds_base::List;

/// The entry of an object for which a node stands.
#[derive(Clone, Copy)]
pub struct Origin {
    /// The number of the object, counted from 1.
    pub object: u32,
    /// The number of the entry among the object's, counted from 0.
    pub entry: u32,
    /// The number of the node's parent among the unit's nodes, counted from 0; none at the root.
    pub parent: Option<u32>,
}

/// The nodes of an output unit, in preorder.
#[derive(Drop)]
pub struct ShapeUnit {
    /// The version of DWARF in which the unit is written.
    pub version: u16,
    pub nodes: List<Origin>,
}

/// The units of a linked graph, the node of each entry, and where a reference to it leads.
#[derive(Drop)]
pub struct Shape {
    /// In the order of the output.
    pub units: List<ShapeUnit>,
    /// Of each object, entry by entry: the number of its node in its own unit, if it has one there.
    pub plain: List<List<Option<u32>>>,
    /// Of each object, entry by entry: the node to which a reference to it leads, if there is one.
    pub images: List<List<Option<Target>>>,
}
