//! Range and location lists, as the standard spells them, as they are written and as they are read.
//!
//! Layer: laws. What the readers of lists give is spelled by the standard's words, an item after the other under the
//! base that counts there (`specs/Spelling.antt`), and what is spelled so is read, in both versions
//! ([`ranges_are_read_as_spelled`], [`locations_are_read_as_spelled`], [`location_items_are_read_as_spelled`]). Written
//! lists are spelled so, wherever they stand ([`ranges_are_read_as_written`], [`locations_are_read_as_written`]), and
//! those of a well graph stand where its values name them ([`ranges_at_their_places`], [`locations_at_their_places`]).
//! What is read then is told in `specs/Again.antt`. No relocation stands in a section of lists. Nothing here runs.
#![tactic(auto)]

mod laws;

pub use laws::{
    location_items_are_read_as_spelled, locations_are_read_as_spelled,
    locations_are_read_as_written, locations_at_their_places, ranges_are_read_as_spelled,
    ranges_are_read_as_written, ranges_at_their_places,
};
