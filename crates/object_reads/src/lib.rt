//! The objects of a program, read: each with the marks of its live entries, and with its names where these are wanted.
//!
//! Layer: top. [`Sources`] are the objects of one program among those that are read together, and [`FilesLeft`] the files of
//! which they are. [`read_all`] reads a program's objects by several threads (`reading`, `objects`, `sizes`), and [`read_next`]
//! the next batch of them; behind each those files go of which no later object is (`files`). A universal file is opened at the
//! slice that is for the program (`opening`). What an object is by its bytes, and which fault is the first of all, is
//! `specs/Sources.antt`, which knows of no threads; what is read, `specs/Reading.antt`, `specs/MadeNames.antt`.
#![tactic(auto)]

mod files;
mod lent;
mod objects;
mod opened;
mod opening;
mod reading;
mod sizes;
mod sources;
mod target;

pub use files::FilesLeft;
pub use objects::{ReadObject, no_entries};
pub use reading::{ReadBatch, ReadObjects, read_all, read_next};
pub use sources::Sources;
pub use target::Target;
