//! The units of the linked graph, each cloned from its entries.
//!
//! Layer: output graph. [`clone_unit`] gives one unit of `graph_in` (`link_graph/specs/Graph.antt`) for a shape of the
//! objects. A clone holds no node: it is a [`UnitSource`](unit_source::UnitSource), which makes each node when it is asked
//! for it. An object's unit (`object`) has nodes that say what their entries say (`nodes`, by `clone_values`), the line
//! table that it has in the object, and the addresses of its code in order, each once (`ranges`). The unit of merged
//! entries (`pool`) has nodes of entries of many objects (`entry_sources`). The files that these name, by first use
//! (`source_files`, each file of a unit's table looked at once, by `noted_uses`), make its line table (`file_table`), and
//! their numbers there take the place of those in each unit's own (`source_numbers`). Units are cloned each for itself, in any order, and of the analyses only those need be there
//! whose entries the unit's nodes stand for: [`object_of`] names the object of a unit's root.
#![tactic(auto)]

mod entry_sources;
mod file_table;
mod nodes;
mod noted_uses;
mod object;
mod pool;
mod ranges;
mod source_files;
mod source_numbers;
mod unit;
mod unit_clone;

pub use object::ObjectClone;
pub use pool::PoolClone;
pub use unit::{clone_unit, object_of};
pub use unit_clone::UnitClone;
