//! What a batch is asked, and what it answers: its words, the programs that its list names, and how it ends.
//!
//! Layer: top. [`plan_of_words`] reads the words by `clap`, as `specs/Plan.antt` says. [`programs_of`] gives the programs of
//! a list, or its first line that is refused (`specs/Lines.antt`). [`answer_of`] is the batch's answer after all its
//! programs, and [`batch_code`] an answer's exit code (`specs/Answers.antt`). Nothing here reads a file or links.
#![tactic(auto)]

mod answer;
mod lines;
mod message;
mod plan;
#[cfg(test)]
mod tests;

pub use answer::{BatchStatus, Told, answer_of, batch_code};
pub use lines::{Line, ListError, programs_of};
pub use message::with_code;
pub use plan::{BatchPlan, PlanError, plan_of_words};
