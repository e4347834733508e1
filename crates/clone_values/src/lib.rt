//! What the entries that are written say: their attributes moved to the linked program.
//!
//! Layer: output graph. [`add_attrs`] gives `attrs_written` of an entry (`dwarf_types/specs/LinkedValues.antt`): each
//! attribute in order, moved, or dropped where it speaks of how the input was laid out, where its address did not move,
//! or where it refers to an entry that is not written. References and base types are told by the images of the object's
//! entries (`images`). Texts, blocks and spans are borrowed from the entry; expressions and location lists are made. An
//! expression is cut from its front (`expression`, and `inside` for what stands in an entry value; `cutting` serves both):
//! stretches of bytes as long as can be, operations that name a base type (`typed`), and entry values.
#![tactic(auto)]

mod attributes;
mod cutting;
mod expression;
mod files;
mod images;
mod inside;
mod operands;
mod part;
mod stretch;
mod typed;
mod value;

pub use attributes::add_attrs;
pub use files::Files;
