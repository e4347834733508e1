//! The order of paths, in which equal ones stand together.

ghost use Rattle.std.specs.Prelude.{◌≡◌, ◌<◌, List, length};
ghost use Rattle.std.specs.Option.{ForSome, option_map};
ghost use Rattle.odr_names.specs.Book.{IsBook, objects_in, path_above, path_in};
ghost use Rattle.odr_names.specs.Numbered.{path_at};
ghost use Rattle.odr_names.specs.PathOrder.{own_order, path_order, piece_order, text_order};
ghost use Rattle.odr_names.specs.Pieces.{own_seen, piece_seen};
ghost use Rattle.type_names.specs.Heads.{Object};

use crate::path_book::{Objects, PathBook, Row, piece_of, row_above, row_at};
use crate::piece::{PieceRef, Private};
use std::cmp::Ordering;

/// How the paths of two names stand. A number that no name has stands for a path without pieces.
pub(crate) fn path_cmp(names: &PathBook, a: u32, b: u32) -> Ordering
    ensures { result ≡ path_order (path_at names.now a) (path_at names.now b) }
{
    let left = named(&names.rows, a);
    let right = named(&names.rows, b);
    rows_cmp(&names.objects, &names.rows, left, right)
}

/// The number of a name, if one has it.
fn named(rows: &[Row], x: u32) -> Option<u32>
    ensures within { ForSome result (λ y. y < length rows.now) }
    ensures path { (objects : List Object) → path_above objects rows.now result ≡ path_in objects rows.now x }
{
    if (x as usize) < rows.len() {
        Some(x)
    } else {
        None
    }
}

/// How the paths of two rows stand, or of none.
fn rows_cmp(objects: &Objects, rows: &[Row], a: Option<u32>, b: Option<u32>) -> Ordering
    requires book { IsBook objects.now rows.now }
    requires left { ForSome a (λ x. x < length rows.now) }
    requires right { ForSome b (λ y. y < length rows.now) }
    ensures { result ≡ path_order (path_above (objects_in objects.now) rows.now a) (path_above (objects_in objects.now) rows.now b) }
{
    let mut left = a;
    let mut right = b;
    while let Some(x) = left {
        let Some(y) = right else {
            return Ordering::Greater;
        };
        if x == y {
            return Ordering::Equal;
        }
        let first = row_at(rows, x);
        let second = row_at(rows, y);
        let pieces = piece_cmp(&piece_of(objects, first), &piece_of(objects, second));
        if pieces.is_ne() {
            return pieces;
        }
        left = row_above(x, first);
        right = row_above(y, second);
    }
    if right.is_some() {
        Ordering::Less
    } else {
        Ordering::Equal
    }
}

/// How two pieces stand.
fn piece_cmp(a: &PieceRef, b: &PieceRef) -> Ordering
    ensures { result ≡ piece_order (piece_seen a.now) (piece_seen b.now) }
{
    let numbers = a
        .ordinal
        .cmp(&b.ordinal)
        .then(a.parts.tag.cmp(&b.parts.tag));
    let names = text_cmp(a.parts.name, b.parts.name).then(text_cmp(
        a.parts.linkage,
        b.parts.linkage,
    ));
    let others = text_cmp(a.parts.spelled, b.parts.spelled).then(own_cmp(
        a.parts.private,
        b.parts.private,
    ));
    numbers.then(names.then(others))
}

/// How two texts stand; none stands before all.
fn text_cmp(a: Option<&[u8]>, b: Option<&[u8]>) -> Ordering
    ensures { result ≡ text_order (option_map (λ text. text.now) a.entry) (option_map (λ text. text.now) b.entry) }
{
    match (a, b) {
        (Some(a), Some(b)) => a.cmp(b),
        (Some(_), None) => Ordering::Greater,
        (None, Some(_)) => Ordering::Less,
        (None, None) => Ordering::Equal,
    }
}

/// How two pieces stand that only their own objects and entries tell apart; others stand before these.
fn own_cmp(a: Option<Private>, b: Option<Private>) -> Ordering
    ensures { result ≡ own_order (option_map own_seen a) (option_map own_seen b) }
{
    match (a, b) {
        (Some(a), Some(b)) => a.object.cmp(&b.object).then(a.entry.cmp(&b.entry)),
        (Some(_), None) => Ordering::Greater,
        (None, Some(_)) => Ordering::Less,
        (None, None) => Ordering::Equal,
    }
}
