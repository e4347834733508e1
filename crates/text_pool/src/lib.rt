//! The sections of texts: `__debug_str`, and `__debug_line_str` for line tables of version 5, texts by first use and each
//! once.
//!
//! Layer: writers. Texts stand one after the other, each as "a sequence of contiguous non-null bytes followed
//! by one null byte" (DWARF 4, section 7.5.4, class string), and a value of form `DW_FORM_strp` names one by its
//! offset. [`Naming`] numbers the texts of a part of the output that is written before their places are known, and
//! [`Names`] are these texts by their numbers. [`join_texts`] gives the section of the texts of all parts, and where each
//! begins: `joined` (`specs/Joins.antt`). No text shares the end of another, and that a text has no zero byte is left to
//! its user. Threads look the texts up: these are cut into shards, by some of their bytes, each thread numbers those of a
//! shard, and one goes through all texts by these numbers. A text is hashed once, in one piece, and copied where it is
//! kept.
#![tactic(auto)]

mod error;
mod joining;
mod names;
mod naming;
mod shard;
mod sharing;
mod table;

pub use error::TextError;
pub use joining::Joined;
pub use names::{Names, texts_by_first_use_in_each_part_are_those_of_all};
pub use naming::Naming;
pub use sharing::{join_texts, joined_texts_are_each_once, joined_texts_stand_at_their_places};
