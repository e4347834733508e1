//! The shape of the linked graph: which units and entries are written, and where each entry went.
//!
//! Layer: output graph. [`build`] takes the analyses of all objects with a row of live entries for each, and the book of
//! their names, and gives `shape_of` of them (`specs/Merged.antt`). What an object gives ([`object_shape`]) is told by the
//! object and its names alone: the entries that the book names are merged (`merged`), and of these the namespaces above an
//! entry that is not merged have a node in their own unit too (`kept`). Where none is merged, no row is made. The object's
//! units are passed over once (`object`), and each unit's entries once (`unit`): an entry's parent stands before it, so the
//! node of the parent is known when the entry comes. What the passes make of one object stands in `specs/Passes.antt`, and
//! when that is the object's shape in `specs/OwnShapes.antt`. Merged entries stand in the pool's unit, the first, which
//! holds a node for each path ([`path_nodes`], `specs/Pool.antt`); it is told by the names alone. [`joined_shape`] makes
//! that unit and puts the shapes of all objects together (`joining`, `specs/Joining.antt`): their units stand behind the
//! pool's, and references lead behind the units of the objects before, or to the node of a merged entry's path
//! (`placing`). Several threads share that. The graph for which a shape stands is in `specs/Graph.antt` and
//! `specs/PoolFiles.antt`.
//!
//! Where nothing is merged, an object's shape depends on no other object ([`kept_shape`]), and the shape of a link grows
//! object by object ([`empty_shape`], [`add_object`]): what stands in it of the first objects stays (`proofs/Growing.antt`).
#![tactic(auto)]

mod behind;
mod entry;
mod joining;
mod kept;
mod merged;
mod object;
mod placing;
mod pool;
mod shape;
mod shape_error;
mod unit;
mod unmerged;

pub use joining::joined_shape;
pub use object::{ObjectShape, kept_shape};
pub use pool::{PathNodes, path_nodes};
pub use shape::{build, object_shape};
pub use shape_error::ShapeError;
pub use unmerged::{add_object, empty_shape};
