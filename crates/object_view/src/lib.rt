//! One object: what its debug sections say of the code that was linked.
//!
//! Layer: object readers. [`analyse`] gives `analysis_of` the bytes (`specs/Analysis.antt`): units of DWARF 4 and 5, and
//! entries with moved addresses, expressions, line tables, range and location lists (`specs/Attributes.antt`), the code of
//! subprograms (`specs/Code.antt`) and the frames that are kept, or the object's first fault. It is a list of steps in the
//! order of faults, over readers that stand on their own; what each of these stands on is the object as `object_read` opens
//! it. [`analyse_read`] analyses an object that was read before, by a part of a debug map. Which entries are kept is not
//! said here.
#![tactic(auto)]

mod analysis;
mod attributes;
mod code;
mod expressions;
mod info;
mod laws;
mod line_tables;
mod locations;
mod ranges;
mod steps;
mod units;
mod view;

pub use analysis::{analyse, analyse_read};
pub use laws::kinds_of_object_faults;
