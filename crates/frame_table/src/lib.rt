//! Call frame information: `__debug_frame` of an object, as frame descriptions.
//!
//! Layer: object readers. Reads common information entries (CIEs) and frame description entries (FDEs) of DWARF 4
//! (section 6.4.1) in the 32-bit format with addresses of eight bytes. [`read_frames`] is the crate's one call. It
//! gives `frames_of` the section (`specs/Frames.antt`): each FDE with the content of the CIE that it names, or the
//! first fault. Three laws say what the definition does: no byte of a section that is read is left out
//! ([`entries_fill_the_section`]), and no FDE ([`each_fde_has_its_frame`]), and the faults are of the kinds that
//! [`kinds_of_frame_faults`] names. What stands in a CIE is kept as bytes, and so are call frame instructions.
//! Addresses stay the object's: `moved_parts` moves them by the map of `addr_map`.
#![tactic(auto)]

mod description;
mod entry;
mod frames;
mod laws;
mod naming;

pub use frames::read_frames;
pub use laws::{each_fde_has_its_frame, entries_fill_the_section, kinds_of_frame_faults};
