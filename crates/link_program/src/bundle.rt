//! The two files of a bundle, and what is wanted of them.

use ds_base::Bytes;
use link_core::Counts;

/// The two files of a bundle, and what the link counted.
#[derive(Drop)]
pub struct Bundle {
    /// The dSYM image.
    pub image: Bytes,
    /// The text of Info.plist.
    pub plist: Bytes,
    pub counts: Counts,
}

/// What is wanted of a link.
#[derive(Drop)]
pub struct Wanted<'a> {
    /// Whether types of one name are merged, in C++ and Objective-C++.
    pub odr: bool,
    /// The program's name, which stands in Info.plist.
    pub name: &'a str,
}
