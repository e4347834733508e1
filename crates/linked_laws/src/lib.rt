//! What is linked is well.
//!
//! Layer: laws. [`linked_is_well`] says that the linked graph of objects (`dwarf_types/specs/LinkedGraph.antt`)
//! keeps to the rules of a well graph (`dwarf_types/specs/Well.antt`), where the objects' analyses are sound and
//! say what the bytes of an object can say (`specs/Spellable.antt`), and where whatever an entry that is written needs is
//! written too (`specs/Kept.antt`). [`live_entries_are_closed`] says the last of the live entries.
//! [`written_entries_have_nodes`] says that a reference to an entry that is written leads to the node of that very entry
//! (`specs/Nodes.antt`), [`nodes_stand_for_written_entries`] that each node is that of such an entry, and
//! [`references_are_written`] that no such reference is lost, nor a base type that an operation names.
//! [`lists_end_by_ancestors`] says which lists of siblings end behind a node of a well unit, and
//! [`well_units_are_well_alone`] that a unit which is well in its graph is so by itself. Nothing here runs.
#![tactic(auto)]

mod laws;

pub use laws::{
    linked_behind_is_well, linked_is_well, lists_end_by_ancestors, live_entries_are_closed,
    nodes_stand_for_written_entries, references_are_written, well_units_are_well_alone,
    written_entries_have_nodes,
};
