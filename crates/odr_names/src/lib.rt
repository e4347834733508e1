//! Names: the paths of pooled entries, which of them are equal, and which entry wins each.
//!
//! Layer: names. [`object_names`] makes the names of one object, whatever the others are: [`type_names::type_names`]
//! tells which entries are pooled, and each of these gets a row (`enter`). A row takes 24 bytes and leads to the row
//! above; names and linkage names stay in the analyses. [`joined_book`] puts the rows of all objects behind one another
//! (`joining`, `specs/Joining.antt`), once [`names_together`] has told that they are few enough; [`book`] makes and
//! joins them one by one. What a book's names are stands in `type_names/specs/Names.antt`; when rows stand for them, in
//! `specs/Book.antt`; which rows of live entries a book is made of, in `specs/Making.antt`. Paths are compared hash
//! first and then piece by piece upwards (`path_book`, `piece`). Ordinals (`ordinals`) come from chains of entries
//! whose hashes share a cell, or where these are long from an ordered table (`twin_table`), and winners
//! ([`winners_plain`], `specs/Winners.antt`) from a sort by hashes and paths (`path_order`, `specs/PathOrder.antt`). A [`PathBook`] is a `NameBook` of `pool_core`
//! (`name_book`), and so is a [`KnownBook`], which need not compare what stands above names that are known to be equal.
#![tactic(auto)]

mod book_error;
mod enter;
mod entry_place;
mod hash;
mod joining;
mod known_book;
mod marks;
mod name_book;
mod one_object;
mod ordinals;
mod path_book;
mod path_order;
mod piece;
mod row_numbers;
mod together;
mod twin_table;
mod winners;

pub use book_error::BookError;
pub use entry_place::Occurrence;
pub use known_book::KnownBook;
pub use one_object::{ObjectNames, object_names};
pub use path_book::{
    PathBook, above, bids_are_some, book, count, first_of, have_one_hash, joined_book,
    names_are_few, names_are_linked, number, object_count, occurrence, path_equal, path_start,
};
pub use together::names_together;
pub use winners::{put_winners, winners_plain};
