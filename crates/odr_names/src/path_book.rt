//! The book of names.

ghost use Rattle.std.specs.Prelude.{◌≡◌, ◌+◌, ◌<◌, ◌≤◌, ◌-◌, ◌/◌, ◌%◌, ◌^◌, ◌↔◌, ℕ, [], ◌∷◌, ◌++◌, length, slice_get, IsTrue, Some, Err, IfOk};
ghost use Rattle.std.specs.List.{All};
ghost use Rattle.std.specs.List.Sorted.{IsNonDecreasingBy, IsPartitionPoint};
ghost use Rattle.std.specs.Option.{ForSome, option_map, option_map_or};
ghost use Rattle.dwarf_types.specs.Sound.{IsSound};
ghost use Rattle.odr_names.specs.declared.book_error.BookError.TheVariants as errors;
ghost use Rattle.odr_names.specs.Book.{AreRows, AreTold, IsBook, IsRowOf, objects_in, path_in, row_above, row_bid, row_piece};
ghost use Rattle.odr_names.specs.Numbered.{IsLinkedUp, IsOfParent, SamePath, bid_at, objects_of, path_at, merged};
ghost use Rattle.odr_names.specs.Innermost.{innermost, rank_hash};
ghost use Rattle.odr_names.specs.Known.{AreKnown};
ghost use Rattle.odr_names.specs.Joining.{AreAllNames};
ghost use Rattle.odr_names.specs.Making.{AreLiveRows};
ghost use Rattle.odr_names.specs.Stretches.{AreOfObjects, IsFirstOf, last_object, object_at};
ghost use Rattle.odr_names.specs.Pieces.{own_seen, piece_seen};
ghost use Rattle.odr_names.specs.declared.path_book.Row.{Row as ARow};
ghost use Rattle.type_names.specs.Names.{Named, names};
ghost use Rattle.type_names.specs.Paths.{Piece};
ghost use Rattle.type_names.specs.Start.{path_hash, start_of};

use crate::book_error::BookError;
use crate::entry_place::Occurrence;
use crate::hash::hash_private;
use crate::joining::joined;
use crate::one_object::{ObjectNames, object_names};
use crate::piece::{PieceRef, Private, parts_at, piece_equal};
use crate::together::names_together;
use ds_base::{BitRow, NoMemory};
use dwarf_types::Analysis;
use std::alloc::Global;
use std::marker::Model;
use type_names::TypeNames;

/// The objects of a link.
#[derive(Drop)]
pub(crate) struct Objects<'a> {
    pub(crate) seen: &'a [Analysis],
    pub(crate) live: &'a [BitRow],
    pub(crate) names: Vec<TypeNames>,
}

/// A pooled entry, in 24 bytes.
#[derive(Clone, Copy)]
pub(crate) struct Row {
    /// The hash of the whole path.
    pub(crate) hash: u64,
    pub(crate) entry: u32,
    pub(crate) ordinal: u32,
    /// How many rows before this one that of the entry above stands, or 0 where that is the unit.
    pub(crate) up: u32,
    /// Counted from 1.
    pub(crate) object: u16,
    /// Whether it is a declaration of a type.
    pub(crate) declared: bool,
    /// Whether a piece of its path has a [`Private`].
    pub(crate) private: bool,
}

const _: () = prove!(size_of::<Row>() == 24);

/// The pooled entries of a link, in the order of objects and entries, with their paths and bids.
///
/// Contracts see the list of the names.
#[derive(Drop)]
pub struct PathBook<'a> {
    pub(crate) objects: Objects<'a>,
    pub(crate) rows: Vec<Row>,
}

impl<'a> Model for PathBook<'a> {
    ghost use Rattle.std.specs.Prelude.{List, map};
    ghost use Rattle.odr_names.specs.Book.{IsBook, objects_in, row_name};
    ghost use Rattle.type_names.specs.Names.{Named};

    ghost Value = { List Named };

    ghost view = { λ b. map (row_name (objects_in b.objects)) b.rows.items };

    ghost invariant = { λ b. IsBook b.objects b.rows.items };
}

/// The book of the names of a link.
///
/// `live` has a row for each object, which marks its live entries. Without `odr` no types are merged, and the book is
/// empty. A link with 2^25 names or more has none ([`BookError::Pooled`]). Source: this project's profile
/// (docs/PROFILE.md, "Names and the pool").
pub fn book<'a>(
    alloc: Global,
    seen: &'a [Analysis],
    live: &'a [BitRow],
    odr: bool,
) -> Result<PathBook<'a>, BookError>
    requires few { length seen.now < 2 ^ 16 }
    requires sound { All IsSound seen.now }
    requires live { AreLiveRows seen.now live.now }
    ensures made { IfOk result (λ book. (book ≡ names (merged odr seen.now live.now)) × (length book < 2 ^ 25)) }
    ensures pooled { result ≡ Err errors.Pooled → 2 ^ 25 ≤ length (names (merged odr seen.now live.now)) }
{
    if odr {
        merged_book(alloc, seen, live)
    } else {
        merged_book(alloc, &seen[..0], &live[..0])
    }
}

/// The book of the names of these objects.
fn merged_book<'a>(
    alloc: Global,
    seen: &'a [Analysis],
    live: &'a [BitRow],
) -> Result<PathBook<'a>, BookError>
    requires few { length seen.now < 2 ^ 16 }
    requires sound { All IsSound seen.now }
    requires live { AreLiveRows seen.now live.now }
    ensures made { IfOk result (λ book. (book ≡ names (objects_of seen.now live.now)) × (length book < 2 ^ 25)) }
    ensures pooled { result ≡ Err errors.Pooled → 2 ^ 25 ≤ length (names (objects_of seen.now live.now)) }
{
    let own = all_names(alloc, seen, live)?;
    let Some(total) = names_together(&own) else {
        return Err(BookError::Pooled);
    };
    Ok(joined_book(alloc, seen, live, own, total)?)
}

/// The names of each object.
fn all_names(
    alloc: Global,
    seen: &[Analysis],
    live: &[BitRow],
) -> Result<Vec<ObjectNames>, NoMemory>
    requires few { length seen.now < 2 ^ 16 }
    requires sound { All IsSound seen.now }
    requires live { AreLiveRows seen.now live.now }
    ensures { IfOk result (λ own. AreAllNames (objects_of seen.now live.now) own.items) }
{
    let mut own = Vec::with_capacity(alloc, seen.len())?;
    for i in 0..seen.len() {
        own.push(object_names(alloc, &seen[i], &live[i], i as u32 + 1)?)?;
    }
    Ok(own)
}

/// The book of the names of these objects, where the names of each are made.
///
/// `own` are those of each object, in the order of the objects ([`object_names`]), and `total` tells how many they are
/// together ([`names_together`]). Their rows are put behind one another.
pub fn joined_book<'a>(
    alloc: Global,
    seen: &'a [Analysis],
    live: &'a [BitRow],
    own: Vec<ObjectNames>,
    total: u32,
) -> Result<PathBook<'a>, NoMemory>
    requires few { length seen.now < 2 ^ 16 }
    requires live { length live.now ≡ length seen.now }
    requires own { AreAllNames (objects_of seen.now live.now) own.items }
    requires total { (total ≡ length (names (objects_of seen.now live.now))) × (total < 2 ^ 25) }
    ensures { IfOk result (λ book. (book ≡ names (objects_of seen.now live.now)) × (length book < 2 ^ 25)) }
{
    let (objects, rows) = joined(alloc, seen, live, own, total as usize)?;
    Ok(PathBook { objects, rows })
}

/// How many names there are.
pub fn count(names: &PathBook) -> u32
    ensures { result ≡ length names.now }
{
    names.rows.len() as u32
}

/// The number of the last object that has a name, counted from 1; 0 where none has. Names stand in the order of their
/// objects, so it is that of the last name.
pub fn object_count(names: &PathBook) -> u32
    ensures last { result ≡ object_at names.now (length names.now - 1) }
    ensures objects { AreOfObjects names.now result }
    ensures few { result < 2 ^ 16 }
{
    last_object(&names.rows)
}

/// The first name of an object, or of one behind it.
pub fn first_of(names: &PathBook, object: u32) -> u32
    ensures { IsFirstOf names.now object result }
{
    count_before(&names.rows, object) as u32
}

/// Where a name stands.
pub fn occurrence(names: &PathBook, x: u32) -> Occurrence
    requires { x < length names.now }
    ensures { (name : Named) → slice_get names.now x ≡ Some name → (result.object ≡ name.object) × (result.entry ≡ name.entry) }
{
    let row = row_at(&names.rows, x);
    Occurrence {
        object: u32::from(row.object),
        entry: row.entry,
    }
}

/// The bid of a name: definitions go before declarations, earlier objects before later ones, and earlier entries before
/// later ones.
pub fn number(names: &PathBook, x: u32) -> u64
    requires { x < length names.now }
    ensures { result ≡ bid_at names.now x }
{
    bid_of(row_at(&names.rows, x))
}

/// A book has fewer than 2^25 names.
pub fn names_are_few(names: &PathBook)
    ensures { length names.now < 2 ^ 25 }
{
    let _count = names.rows.len();
}

/// No bid is 2^64 - 1, which stands for none.
pub fn bids_are_some(names: &PathBook)
    ensures { (x : ℕ) → x < length names.now → bid_at names.now x < 2 ^ 64 - 1 }
{
    let _count = names.rows.len();
}

/// The name of the parent of the entry of name `x`, whose path is that of `x` without its last piece; none where that path
/// has one piece, since the parent then has no name.
pub fn above(names: &PathBook, x: u32) -> Option<u32>
    requires { x < length names.now }
    ensures before { ForSome result (λ p. p < x) }
    ensures parent { ForSome result (IsOfParent names.now x) }
    ensures path { (piece : Piece) × (path_at names.now x ≡ option_map_or (path_at names.now) result [] ++ piece ∷ []) }
{
    row_above(x, row_at(&names.rows, x))
}

/// The path of each name is that of the one above and a piece more, whether or not that one is asked for ([`above`]).
pub fn names_are_linked(names: &PathBook)
    ensures { (x : ℕ) → x < length names.now → IsLinkedUp names.now x }
{
    let _count = names.rows.len();
}

/// Whether two names have the same path.
pub fn path_equal(names: &PathBook, a: u32, b: u32) -> bool
    requires { (a < length names.now) × (b < length names.now) }
    ensures { IsTrue result ↔ SamePath names.now a b }
{
    rows_equal(&names.objects, &names.rows, a, b, 0, &[])
}

/// The same, where of some names others are known that have their paths ([`crate::KnownBook`]).
pub(crate) fn known_equal(names: &PathBook, first: u32, words: &[u32], a: u32, b: u32) -> bool
    requires names { (a < length names.now) × (b < length names.now) }
    requires known { AreKnown names.now first words.now }
    ensures { IsTrue result ↔ SamePath names.now a b }
{
    rows_equal(&names.objects, &names.rows, a, b, first, words)
}

/// Whether the paths of two names have one hash, without which they differ. It looks at the two rows alone.
pub fn have_one_hash(names: &PathBook, a: u32, b: u32) -> bool
    requires { (a < length names.now) × (b < length names.now) }
    ensures { IsTrue result ↔ (path_hash (path_at names.now a) ≡ path_hash (path_at names.now b)) }
{
    hash_at(names, a) == hash_at(names, b)
}

/// The cell, below `cells`, at which the search for a name begins.
pub fn path_start(names: &PathBook, x: u32, cells: u32) -> u32
    requires { (x < length names.now) × (1 ≤ cells) }
    ensures { result ≡ start_of (path_at names.now x) cells }
{
    start_among(hash_at(names, x), cells)
}

/// The hash of a name's path.
pub(crate) fn hash_at(names: &PathBook, x: u32) -> u64
    requires { x < length names.now }
    ensures { result ≡ path_hash (path_at names.now x) }
{
    row_at(&names.rows, x).hash
}

/// A hash of a name's path into which its innermost [`Private`] goes too.
pub(crate) fn rank_hash_at(names: &PathBook, x: u32) -> u64
    requires { x < length names.now }
    ensures { result ≡ rank_hash (path_at names.now x) }
{
    let own = innermost_of(&names.objects, &names.rows, x);
    hash_private(hash_at(names, x), own)
}

/// The innermost [`Private`] of a row's path. No row is looked at above one whose path has none.
fn innermost_of(objects: &Objects, rows: &[Row], x: u32) -> Option<Private>
    requires book { IsBook objects.now rows.now }
    requires inside { x < length rows.now }
    ensures { option_map own_seen result ≡ innermost (path_in (objects_in objects.now) rows.now x) }
{
    let mut next = Some(x);
    while let Some(y) = next {
        let row = row_at(rows, y);
        if !row.private {
            return None;
        }
        let own = piece_of(objects, row).parts.private;
        if own.is_some() {
            return own;
        }
        next = row_above(y, row);
    }
    None
}

/// The row of a name.
pub(crate) fn row_at(rows: &[Row], x: u32) -> Row
    requires { x < length rows.now }
    ensures { slice_get rows.now x ≡ Some result }
{
    rows[x as usize]
}

/// The number of the row of the entry above that of row `x`, where that is not the unit.
pub(crate) fn row_above(x: u32, row: Row) -> Option<u32>
    requires { row.up ≤ x }
    ensures { result ≡ row_above x row }
{
    if row.up == 0 { None } else { Some(x - row.up) }
}

/// How many rows are of objects before this one.
fn count_before(rows: &[Row], object: u32) -> usize
    requires { IsNonDecreasingBy (λ row. row.object) rows.now }
    ensures within { result ≤ length rows.now }
    ensures parted { IsPartitionPoint (λ row. row.object < object) (λ row. object ≤ row.object) rows.now result }
{
    rows.partition_point(|row| u32::from(row.object) < object)
}

/// The object of the last row; 0 where there is no row.
fn last_object(rows: &[Row]) -> u32
    ensures { result ≡ last_object rows.now }
{
    match rows.last() {
        Some(row) => u32::from(row.object),
        None => 0,
    }
}

/// The bid of a row.
fn bid_of(row: Row) -> u64
    requires { (row.object < 2 ^ 16) × (row.entry < 2 ^ 24) }
    ensures { result ≡ row_bid row }
{
    let place = (u64::from(row.object) << 32) + u64::from(row.entry);
    if row.declared {
        (1 << 63) + place
    } else {
        place
    }
}

/// The cell at which the search for a hash begins among so many.
fn start_among(hash: u64, cells: u32) -> u32
    requires { 1 ≤ cells }
    ensures { result ≡ hash / 2 ^ 32 % cells }
{
    ((hash >> 32) % u64::from(cells)) as u32
}

/// Whether two rows have the same path. `words` tells of rows from `first` on others that are known to have their paths.
fn rows_equal(objects: &Objects, rows: &[Row], a: u32, b: u32, first: u32, words: &[u32]) -> bool
    requires book { IsBook objects.now rows.now }
    requires inside { (a < length rows.now) × (b < length rows.now) }
    requires known { (i x : ℕ) → slice_get words.now i ≡ Some (x + 1) → path_in (objects_in objects.now) rows.now x ≡ path_in (objects_in objects.now) rows.now (first + i) }
    ensures { IsTrue result ↔ (path_in (objects_in objects.now) rows.now a ≡ path_in (objects_in objects.now) rows.now b) }
{
    let mut left = Some(a);
    let mut right = Some(b);
    while let Some(x) = left {
        let Some(y) = right else {
            return false;
        };
        if x == y {
            return true;
        }
        if is_known(first, words, x, y) {
            return true;
        }
        let here = row_at(rows, x);
        let there = row_at(rows, y);
        if !may_be_equal(objects, here, there) {
            return false;
        }
        left = row_above(x, here);
        right = row_above(y, there);
    }
    right.is_none()
}

/// Whether it is known of row `y` that row `x` has its path.
fn is_known(first: u32, words: &[u32], x: u32, y: u32) -> bool
    requires { x < 2 ^ 25 }
    ensures { IsTrue result → (first ≤ y) × (slice_get words.now (y - first) ≡ Some (x + 1)) }
{
    if y < first || (y - first) as usize >= words.len() {
        return false;
    }
    words[(y - first) as usize] == x + 1
}

/// Whether two rows have the same hash and the same piece.
fn may_be_equal(objects: &Objects, a: Row, b: Row) -> bool
    requires told { AreTold objects.now }
    requires rows { (IsRowOf (objects_in objects.now) a) × (IsRowOf (objects_in objects.now) b) }
    ensures { IsTrue result ↔ ((a.hash ≡ b.hash) × (row_piece (objects_in objects.now) a ≡ row_piece (objects_in objects.now) b)) }
{
    a.hash == b.hash && piece_equal(&piece_of(objects, a), &piece_of(objects, b))
}

/// The piece of a row.
pub(crate) fn piece_of<'b>(objects: &'b Objects, row: Row) -> PieceRef<'b>
    requires told { AreTold objects.now }
    requires row { IsRowOf (objects_in objects.now) row }
    ensures { row_piece (objects_in objects.now) row ≡ Some (piece_seen result) }
{
    let i = row.object as usize - 1;
    let parts = parts_at(
        seen_at(objects, i),
        live_at(objects, i),
        names_at(objects, i),
        u32::from(row.object),
        row.entry,
    );
    PieceRef {
        parts,
        ordinal: row.ordinal,
    }
}

/// The analysis of an object.
pub(crate) fn seen_at<'b>(objects: &'b Objects, i: usize) -> &'b Analysis
    requires { i < length objects.now.seen.now }
    ensures { slice_get objects.now.seen.now i ≡ Some result.now }
{
    &objects.seen[i]
}

/// The row of the live entries of an object.
pub(crate) fn live_at<'b>(objects: &'b Objects, i: usize) -> &'b BitRow
    requires { i < length objects.now.live.now }
    ensures { slice_get objects.now.live.now i ≡ Some result.now }
{
    &objects.live[i]
}

/// What is told of the names of an object.
pub(crate) fn names_at<'b>(objects: &'b Objects, i: usize) -> &'b TypeNames
    requires { i < length objects.now.names.items }
    ensures { slice_get objects.now.names.items i ≡ Some result.now }
{
    &objects.names[i]
}
