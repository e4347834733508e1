//! Units and their entries: `__debug_info` of an object.
//!
//! Layer: object readers. Reads units of DWARF 4 and 5 (section 7.5) in the 32-bit format with addresses of
//! eight bytes. [`read_units`] gives `units_of` of the sections (`specs/Unit.antt`), or the first fault: unit
//! by unit the fields of the header, the abbreviation table, and the entries with their values from left to
//! right; then the references in document order. [`read_resolved_units`] also gives the number of the entry
//! to which each of them leads. That this is what the bytes spell, a unit being a header, a tree and zero
//! bytes, is said by [`units_are_read_as_spelled`] over the grammar of `specs/Spelling.antt`.
//!
//! Addresses stay the object's, and no relocation is looked at. Of line tables, range lists and location
//! lists only the offset is tried. The bases of a unit's tables stand in its root, so that is read once to
//! find them and once with them at hand.
#![tactic(auto)]

mod attribute;
mod bases;
mod entry;
mod header;
mod laws;
mod meaning;
mod packed;
mod parsed;
mod profile;
mod reference;
mod table;
mod unit;

pub use header::header_size;
pub use laws::{
    kinds_of_unit_faults, units_are_read_alone, units_are_read_as_spelled,
    written_units_lead_somewhere,
};
pub use meaning::{Meaning, is_address_index, meaning_of_offset};
pub use parsed::Parsed;
pub use profile::Profile;
pub use reference::Reference;
pub use unit::{read_resolved_units, read_unit, read_units};
