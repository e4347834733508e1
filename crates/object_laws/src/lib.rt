//! What an object's bytes say is spellable.
//!
//! Layer: laws. [`analyses_are_spellable`] says that the analysis of every object keeps to what the linked graph
//! asks of it beside soundness (`linked_laws/specs/Spellable.antt`): values fit their forms, operations are whole, lists and
//! code are spans, entries stand in preorder. [`what_is_linked_is_well`] puts this together with the laws of the linked
//! graph: what is linked of analysed objects (`specs/Analysed.antt`) keeps to the rules of a well graph. Nothing here
//! runs.
#![tactic(auto)]

mod laws;

pub use laws::{analyses_are_spellable, what_is_linked_is_well};
