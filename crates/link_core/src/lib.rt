//! A program linked with its objects.
//!
//! Layer: top. [`link_objects`] reads the objects (`object_reads`), drafts the units of the linked graph (`unit_drafts`), gives
//! the drafts their places and writes the image (`image`), and counts (`bundle`). Where nothing is merged, it drafts the units
//! of each batch of objects before it reads the next (`unmerged`, `specs/Unmerged.antt`). The image goes behind what stands in
//! a file, so that those of several programs may stand in one. [`check_objects`] reads objects for their faults alone. What is
//! answered is `specs/Linked.antt`, which knows of no threads; what the passes behind the drafts answer, `specs/Passes.antt`.
#![tactic(auto)]

mod bundle;
mod image;
mod link;
mod program;
mod target;
mod unmerged;

pub use bundle::{Counts, Linked};
pub use link::{check_objects, link_objects};
pub use program::Program;
