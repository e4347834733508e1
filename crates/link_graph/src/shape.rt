//! All objects: the shape of what is linked of them.

ghost use Rattle.std.specs.Prelude.{◌≡◌, ◌<◌, ◌≤◌, ◌^◌, Bool, Err, length, All, IfOk};
ghost use Rattle.dwarf_types.specs.LinkedShape.{AreMarked};
ghost use Rattle.dwarf_types.specs.Sound.{IsSound};
ghost use Rattle.odr_names.specs.Winners.{AreWinners};
ghost use Rattle.link_graph.specs.declared.shape_error.ShapeError.TheVariants as errors;
ghost use Rattle.link_graph.specs.Graph.{IsShape};
ghost use Rattle.link_graph.specs.Merged.{kept_objects, linked_names, shape_of};
ghost use Rattle.link_graph.specs.OwnShapes.{IsOwnShapeAt};

use crate::joining::joined_shape;
use crate::merged::merged_shape;
use crate::object::ObjectShape;
use crate::pool::path_nodes;
use crate::shape_error::ShapeError;
use ds_base::{BitRow, NoMemory};
use dwarf_types::{Analysis, Shape};
use odr_names::{PathBook, first_of};
use std::alloc::Global;
use std::thread::Threads;

/// The shape of what is linked of some objects: the pool's unit, if entries are merged; of each unit with a kept entry its
/// kept entries in document order; the node of each entry, and where a reference to it leads.
///
/// A row tells of each object which of its entries are live. The entries that `names` names are merged: of the names
/// of one path the winner stands in the pool's unit, and references to all of them lead there. Kept are the live entries
/// that are not merged, and merged namespaces above them. A kept entry keeps the unit in which it stands, and units keep
/// the order of the objects and of their places there, and their versions. The pool's unit is of version 5 where another
/// unit is, else of version 4. A shape with 2^32 units or more is not made ([`ShapeError::Units`]).
pub fn build<R: Threads + Sync>(
    rt: &R,
    alloc: Global,
    seen: &[Analysis],
    live: &[BitRow],
    names: &PathBook,
    winners: &[u32],
) -> Result<Shape, ShapeError>
    requires sound { All IsSound seen.now }
    requires marked { AreMarked seen.now live.now }
    requires few { length seen.now < 2 ^ 16 }
    requires book { (odr : Bool) × (names.now ≡ linked_names odr seen.now live.now) }
    requires winners { AreWinners names.now winners.now }
    ensures exact { IfOk result (λ shape. (odr : Bool) → names.now ≡ linked_names odr seen.now live.now → shape ≡ shape_of odr seen.now live.now) }
    ensures is { IfOk result (λ shape. IsShape seen.now shape) }
    ensures few { IfOk result (λ shape. length shape.units < 2 ^ 32) }
    ensures units { result ≡ Err errors.Units → (odr : Bool) → names.now ≡ linked_names odr seen.now live.now → 2 ^ 32 ≤ length (shape_of odr seen.now live.now).units }
{
    let mut own = Vec::with_capacity(alloc, seen.len())?;
    for i in 0..seen.len() {
        own.push(object_shape(alloc, seen, live, names, i as u32)?)?;
    }
    let merged = path_nodes(alloc, names, winners)?;
    joined_shape(rt, alloc, 1, names, winners, merged, own)
}

/// What an object gives to the shape of a link, whatever the other objects give.
///
/// `seen`, `live` and `names` are as [`build`] takes them, and `object` is the object's number from 0. Its units are
/// counted from 0, and a merged entry has an image only where it has a node in its own unit. [`joined_shape`] puts the
/// shapes of all objects together.
pub fn object_shape(
    alloc: Global,
    seen: &[Analysis],
    live: &[BitRow],
    names: &PathBook,
    object: u32,
) -> Result<ObjectShape, NoMemory>
    requires sound { All IsSound seen.now }
    requires marked { AreMarked seen.now live.now }
    requires few { length seen.now < 2 ^ 16 }
    requires book { (odr : Bool) × (names.now ≡ linked_names odr seen.now live.now) }
    requires there { object < length seen.now }
    ensures { IfOk result (λ own. (odr : Bool) → names.now ≡ linked_names odr seen.now live.now → IsOwnShapeAt (kept_objects odr seen.now live.now) object own) }
{
    let i = object as usize;
    let from = first_of(names, object + 1);
    let end = first_of(names, object + 2);
    merged_shape(alloc, object, &seen[i], &live[i], names, from, end)
}
