//! Expressions: the bytes of one, cut into its operations.
//!
//! Layer: object readers. Reads the operations of DWARF 4 (section 7.7.1) and DWARF 5 (section 7.7.1)
//! that the table of `dwarf_types` lists (`operands_after`), and two of GNU's. [`walk`] gives `walk_of`
//! of the expression's bytes (`specs/Reading.antt`), which goes by the same table and by the version of the
//! expression's unit, or the first fault;
//! [`expressions_are_read_as_spelled`] says the same by a relation (`specs/Spelling.antt`), both ways.
//! [`new_length`] is the length of the expression in the output (`specs/Length.antt`), and
//! [`new_op_length`] and [`new_plain_length`] are those of single operations. An expression is cut and
//! never run: what an operation computes is not looked at, and addresses and base types stay the object's.
#![tactic(auto)]

mod expression;
mod laws;
mod length;
mod op;

pub use expression::walk;
pub use laws::{expressions_are_read_as_spelled, kinds_of_walk_faults};
pub use length::{new_length, new_op_length, new_plain_length};
