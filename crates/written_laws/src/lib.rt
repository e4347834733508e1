//! The sections of a graph, as the standard spells them and as readers read them.
//!
//! Layer: laws. What the encoding of a graph (`dwarf_types/specs/Encode.antt`) gives is spelled by the grammars that the
//! readers of objects stand on. In parts, each wherever it stands: abbreviation tables
//! ([`tables_are_spelled_as_written`]), whose codes find their declarations ([`codes_find_their_declarations`]), the values
//! of attributes ([`attributes_are_spelled_as_written`]), the entries of a unit as a tree
//! ([`entries_are_spelled_as_written`]), and expressions ([`expressions_say_what_was_written`],
//! [`whole_expressions_say_what_was_written`]). And as a whole: the sections of a well graph spell its units
//! ([`graphs_are_spelled_as_written`]), which are read so ([`units_are_read_as_written`]), also as those of a written image
//! ([`units_of_images_are_read_as_written`]); each node is the entry of its
//! number ([`entries_are_the_nodes`]), each reference leads back to the node that it was written for
//! ([`references_lead_back`]), and each line table is read at its place ([`line_tables_are_read_at_their_places`]).
//!
//! What is read then is told in `specs/`: `ReadDeclarations`, `ReadValues`, `ReadEntries`, `ReadUnits`, `LedBack` and
//! `ReadParts`. The limits of readers are a premise (`IsReadable` of `ReadUnits`). Nothing here runs.
#![tactic(auto)]

mod laws;

pub use laws::{
    attributes_are_spelled_as_written, codes_find_their_declarations,
    entries_are_spelled_as_written, entries_are_the_nodes, expressions_say_what_was_written,
    graphs_are_spelled_as_written, line_tables_are_read_at_their_places, references_lead_back,
    tables_are_spelled_as_written, units_are_read_as_written, units_of_images_are_read_as_written,
    whole_expressions_say_what_was_written,
};
