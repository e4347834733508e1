//! Tables of indices: the string offsets, addresses and lists that values of DWARF 5 name by an index.
//!
//! Layer: object readers. A unit says by bases in its root where its tables begin ([`bases_of`]), and a
//! value of an indexed form is a number of an entry of the table (DWARF 5, sections 7.26 to 7.29).
//! [`text_at`], [`address_at`] and [`list_at`] give what stands at an index, by `specs/Tables.antt`, or
//! [`BadIndex`](ds_base::Kind::BadIndex). Of a table's header all is looked at that the reading rests on.
//! An address is read as the number that is stored ([`stored_address`]), without what it means, and no list is read.
#![tactic(auto)]

mod bases;
mod tables;

pub use bases::{Bases, bases_of};
pub use tables::{address_at, has_address, list_at, stored_address, text_at};
