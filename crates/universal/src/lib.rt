//! Universal files: the slices of a file for several CPUs, and thin files joined into one.
//!
//! Layer: files. Reads and writes the format of mach-o/fat.h with 32-bit records, whose numbers have the highest byte
//! first. [`slices`] gives `slices_of` the bytes (`specs/Records.antt`), [`pick`] chooses among slices, and [`slice_for`]
//! cuts out the one that a file has for a CPU, or gives the file itself where it isn't universal (`specs/Choice.antt`).
//! [`join`] gives `joined` of thin files (`specs/Joined.antt`); [`first_page`], [`fill_page`] and [`write_head`] make the
//! same in place, where the parts are written one behind the other into one room. Laws say that what is joined is read
//! back ([`slices_read_back`]), that slices lie in their file, and why a file is refused. Nothing here looks into a slice.
#![tactic(auto)]

mod choosing;
mod joining;
mod law;
mod parts;
mod records;

pub use choosing::{Arch, pick, slice_for};
pub use joining::{fill_page, first_page, join, write_head};
pub use law::{
    kinds_of_universal_faults, parts_are_appended, slices_lie_in_the_file, slices_read_back,
    thin_files_stand_for_themselves, universal_faults_have_causes,
};
pub use parts::{Appended, JoinError, Thin};
pub use records::{Slice, slices};
