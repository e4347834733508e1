//! Output units, given node by node.
//!
//! Layer: output graph. Who writes a unit asks a [`UnitSource`] for its nodes one by one, so that no unit stands in memory
//! as a whole; a contract sees the unit that the source gives. Attributes of a node borrow what is long ([`OutAttrRef`]),
//! and are seen as attributes by `attr_given` (`specs/Given.antt`). A unit that does stand in memory is a source of itself.
#![tactic(auto)]

mod cow_list;
mod given;
mod source;
mod whole;

pub use cow_list::CowList;
pub use given::{OutAttrRef, OutValueRef};
pub use source::{NodeHead, UnitSource};
