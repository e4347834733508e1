//! What is linked with merged entries is well.
//!
//! Layer: laws. [`merged_is_well`] says that the linked graph with the unit of merged entries
//! (`link_graph/specs/Graph.antt`, `Merged.antt`) keeps to the rules of a well graph
//! (`dwarf_types/specs/Well.antt`), where the source files that merged entries name have numbers of 64 bits
//! (`specs/Files.antt`). [`nothing_merged_is_linked`] says that without merging it is the graph of the live entries alone,
//! [`every_path_has_a_node`] that each name has a node, that of its path, and [`names_bid_apart`] that each path has one
//! winner. [`live_entries_have_nodes`] says where references to live entries lead (`specs/Leads.antt`),
//! [`nodes_stand_for_live_entries`] that all nodes are of these (`specs/Stands.antt`), and
//! [`nodes_say_what_their_entries_say`] what stands there (`specs/Says.antt`), the source files that are named included
//! (`specs/SourceFiles.antt`). [`lineages_reach_the_top`] says which entries stand above one
//! (`dwarf_types/specs/Tree.antt`). Nothing here runs.
#![tactic(auto)]

mod laws;

pub use laws::{
    every_path_has_a_node, lineages_reach_the_top, live_entries_have_nodes, merged_is_well,
    names_bid_apart, nodes_say_what_their_entries_say, nodes_stand_for_live_entries,
    nothing_merged_is_linked,
};
