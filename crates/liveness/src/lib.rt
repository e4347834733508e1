//! Which entries of an object are live: the least set that holds the roots and what each of its entries needs.
//!
//! Layer: choosing. What a root is and what an entry needs stands in `dwarf_types/specs/Live.antt`, over what it means
//! that an entry's address moved (`Moves.antt` there). [`live`] marks exactly these entries. It marks the roots (`roots`),
//! which wait from then on (`mark`); an entry that waits is taken off, and what it needs (`needs`, over the table of
//! `children`) is marked in turn, until none waits (`spread`). Each entry waits once at most, and nothing recurses, so
//! time and memory grow with the number of entries, of their attributes and of the operations of these. What moved
//! ([`address_moved`], [`low_pc_moves`], [`all_fields_moved`]) is asked again where entries are written.
#![tactic(auto)]

mod children;
mod mark;
mod moves;
mod needs;
mod roots;
mod spread;

pub use moves::{address_moved, all_fields_moved, low_pc_moves};
pub use spread::live;
