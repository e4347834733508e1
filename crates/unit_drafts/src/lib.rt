//! The units of the linked graph: its shape, and the drafts of its units.
//!
//! Layer: top. [`shape_of`] joins the names of all objects, has them bid for and gives the output its shape (`graph`,
//! `shaping`); [`drafts_of`] clones each unit and drafts its bytes, batch by batch (`drafting`, `batch`, `batches`, `texts`), while the
//! analyses go that no later unit needs. [`Drafts`] does the same for objects that come one batch after the other. What is
//! counted of a link is in `counts`. Which graph is linked is `specs/Graphs.antt`, and which limits it reaches before it is
//! laid out `specs/Limits.antt`; what the passes answer, `specs/Shaped.antt`, `specs/Shaping.antt` and `specs/Drafting.antt`.
#![tactic(auto)]

mod batch;
mod batches;
mod counts;
mod drafting;
mod graph;
mod results;
mod shaping;
mod texts;

pub use counts::{count_entries, count_live, count_marks, count_nodes};
pub use drafting::{Drafts, all_drafted, drafts_of};
pub use graph::{Shaped, frames_of, no_names, shape_of, too_many_units};
pub use texts::size_of_their_texts;
