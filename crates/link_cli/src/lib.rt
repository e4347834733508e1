//! The command: from its words to the two files of the bundle, and what it tells.
//!
//! Layer: top. [`plan_of_words`] reads the words by `clap`, as `specs/Plan.antt` says. [`link_main`] does what they ask: it
//! has a program, its debug map and the files that the map names read and linked by `link_program`, and writes Info.plist
//! and the image; or it tells the debug map, or what was counted of the link of a generated program (`sample_objects`). Its contract is `specs/Answer.antt`: for each list of words and each content of the files, the
//! status with its cause, what stands in the files then, and the message (`specs/Endings.antt`, `specs/Texts.antt`). What
//! the program's file refuses is `link_program/specs/Refusals.antt`; what the objects refuse, and the bytes of the bundle, is
//! `link_program/specs/Making.antt`.
//!
//! The program and each file that its map names are read, and each file of the bundle is replaced, by one call. Both
//! files, their names and all messages are made before the first file is replaced, so that a refusal leaves all files as
//! they were. The message goes out last, by one call.
#![tactic(auto)]

mod ending;
mod generate;
mod laws;
mod link;
mod making;
mod output;
mod plan;
mod texts;
mod words;

pub use laws::{links_answer_what_is_told, what_is_linkable_is_linked};
pub use link::link_main;
pub use plan::{Mode, Plan, PlanError, plan_of_words};
