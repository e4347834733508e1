//! BSD archives: the bytes of their members.
//!
//! Layer: files. Reads the format of ar.h as BSD's and Apple's tools write it: names of up to 16 bytes padded
//! with spaces, and longer ones in the first bytes of the member. [`read_members`] makes a table of an archive in one
//! walk, and [`Members::find`] gives `member_of` the archive (`specs/Archive.antt`) of any name. Names and contents stay
//! in the archive's bytes. Laws say that no byte of an archive is left out ([`members_fill_the_archive`]), that an archive
//! which is spelled by its members is read back ([`archives_read_back`], `specs/Spelling.antt`), and of which kinds faults
//! are. Symbol tables are members like any other, and thin archives aren't read.
#![tactic(auto)]

mod archive;
mod header;
mod law;
mod number;
mod padding;

pub use archive::{Members, read_members};
pub use law::{archives_read_back, kinds_of_member_faults, members_fill_the_archive};
