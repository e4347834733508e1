//! Attribute values: one value of `__debug_info`, by its form.
//!
//! Layer: object readers. Reads the forms of DWARF 4 (section 7.5.4) and DWARF 5 (section 7.5.6) that
//! `form_class` lists, in units of versions 4 and 5 of the 32-bit format with addresses of eight
//! bytes. [`read_value`] gives `value_at` (`specs/Reading.antt`), which goes by the same table
//! (`specs/Forms.antt`), or the first fault. What a value means is not looked at: addresses stay the
//! object's, references and offsets the stored numbers, and expressions their bytes.
#![tactic(auto)]

mod form;
mod laws;
mod value;

pub use laws::{kinds_of_value_faults, values_are_read_as_spelled};
pub use value::read_value;
