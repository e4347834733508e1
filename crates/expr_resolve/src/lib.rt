//! Expressions of an object, with what their operands mean.
//!
//! Layer: object readers. [`read_expression`] cuts an expression into its operations (DWARF 4 and 5, section 7.7.1) and
//! gives `expression_of` it (`specs/Expressions.antt`): addresses with where they went, base types by their entries, what
//! an index names in the operation itself, or the first fault. [`read_stored_expression`] gives `stored_expression_of` it,
//! where nothing moves. An expression is never run.
#![tactic(auto)]

mod branches;
mod context;
mod entry;
mod expression;
mod indices;
mod laws;
mod length;
mod lookup;
mod operand;
mod operations;

pub use context::{BaseType, ExprContext, ExprNames};
pub use expression::{read_expression, read_stored_expression};
pub use laws::{kinds_of_expression_faults, kinds_of_stored_expression_faults};
