//! Names of types: which entries of an object are merged with those of other objects, and how types are spelled.
//!
//! Layer: names. The definitions stand in `specs/`: the trees of entries (`Tree`), what an entry says of itself
//! (`Entries`), spelled types (`Spell`), heads and pooled entries (`Heads`), paths (`Paths`), names with their bids
//! (`Names`) and where the search for a path starts (`Start`). [`type_names`] tells of an object which entries are pooled,
//! which stand in the subtrees of heads, and the spelled texts of the pieces of these (`pooled`; what it answers stands in
//! `specs/Pooled.antt`). Of an object without a unit that takes part in merging it looks at the units alone. Of others it
//! goes over the entries a fixed number of times: rows tell what heads ask of each entry
//! (`heads`), marks go down and up the trees by parents alone (`tree`), and a table leads from an entry to those of its
//! children that its spelling reads (`children`). Types are spelled with at most 64 of them open and up to 4,096 bytes
//! (`spell`), and nothing recurses deeper; the texts lie in one row of bytes ([`TextTable`]).
#![tactic(auto)]

mod children;
mod entries;
mod heads;
mod pooled;
mod spell;
mod text_table;
mod tree;

pub use entries::{is_declaration, is_type, linkage_of, name_of};
pub use pooled::{TypeNames, type_names};
pub use text_table::TextTable;
pub use tree::marked_below;
