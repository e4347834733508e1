//! The shapes of all objects, joined to that of a link.

ghost use Rattle.std.specs.Prelude.{◌≡◌, ◌<◌, ◌≤◌, ◌^◌, Bool, List as Listed, Err, length, IfOk};
ghost use Rattle.dwarf_types.specs.declared.analysis.Analysis.{Analysis as Seen};
ghost use Rattle.link_graph.specs.declared.shape_error.ShapeError.TheVariants as errors;
ghost use Rattle.link_graph.specs.Graph.{IsShape};
ghost use Rattle.link_graph.specs.Joining.{ArePathNodes, HavePlaces, IsUnplaced};
ghost use Rattle.link_graph.specs.Merged.{pool_units, shape_of};
ghost use Rattle.link_graph.specs.OwnShapes.{AreOwnShapes};

use crate::behind::number_behind;
use crate::object::ObjectShape;
use crate::placing::{Place, Places, place_shared};
use crate::pool::{PathNodes, settle_version, units_of};
use crate::shape_error::ShapeError;
use ds_base::List;
use dwarf_types::{Shape, ShapeUnit};
use odr_names::{PathBook, first_of};
use std::alloc::Global;
use std::thread::Threads;

/// The shape of a link, by what each of its objects gives ([`object_shape`](crate::object_shape)), by at most `workers`
/// threads.
///
/// `own` has the objects in their order, and `merged` the nodes of their merged entries
/// ([`path_nodes`](crate::path_nodes)), by the `winners` of their paths. The pool's unit stands first, if entries are
/// merged, and the units of each object stand behind those of the objects before, where references to its entries lead.
/// References to merged entries lead to the nodes of their paths. A shape with 2^32 units or more is not made
/// ([`ShapeError::Units`]).
///
/// Each thread makes some nodes of the pool's unit, and then lets the references to the entries of some objects lead
/// where they lead. Where no thread can be started, the caller's does that too.
pub fn joined_shape<R: Threads + Sync>(
    rt: &R,
    alloc: Global,
    workers: u32,
    names: &PathBook,
    winners: &[u32],
    merged: PathNodes,
    own: Vec<ObjectShape>,
) -> Result<Shape, ShapeError>
    requires workers { 1 ≤ workers }
    requires own { (odr : Bool) × (seen : Listed Seen) × (live : Listed (Listed Bool)) × AreOwnShapes odr seen live names.now own.items }
    requires merged { ArePathNodes names.now winners.now merged }
    ensures exact { IfOk result (λ shape. (odr : Bool) (seen : Listed Seen) (live : Listed (Listed Bool)) → AreOwnShapes odr seen live names.now own.items → shape ≡ shape_of odr seen live) }
    ensures is { IfOk result (λ shape. (odr : Bool) (seen : Listed Seen) (live : Listed (Listed Bool)) → AreOwnShapes odr seen live names.now own.items → IsShape seen shape) }
    ensures few { IfOk result (λ shape. length shape.units < 2 ^ 32) }
    ensures units { result ≡ Err errors.Units → (odr : Bool) (seen : Listed Seen) (live : Listed (Listed Bool)) → AreOwnShapes odr seen live names.now own.items → 2 ^ 32 ≤ length (shape_of odr seen live).units }
{
    let units = units_of(rt, alloc, workers, names, winners, &merged)?;
    let Unplaced { mut shape, places } = gathered(alloc, names, units, own)?;
    let all = Places {
        names,
        winners,
        nodes: &merged.nodes,
        places: &places,
    };
    place_shared(rt, workers, shape.images.as_mut_slice(), &all);
    Ok(shape)
}

/// A shape in which references to the entries of each object lead among its own units, and where these stand.
#[derive(Drop)]
struct Unplaced {
    shape: Shape,
    places: Vec<Place>,
}

/// The units of all objects behind the pool's, if there is one, and the rows of all objects.
fn gathered(
    alloc: Global,
    names: &PathBook,
    pool: Vec<ShapeUnit>,
    own: Vec<ObjectShape>,
) -> Result<Unplaced, ShapeError>
    requires own { (odr : Bool) × (seen : Listed Seen) × (live : Listed (Listed Bool)) × AreOwnShapes odr seen live names.now own.items }
    requires pool { pool.items ≡ pool_units 4 names.now }
    ensures places { IfOk result (λ all. HavePlaces names.now all.places.items all.shape.images) }
    ensures few { IfOk result (λ all. length all.shape.units < 2 ^ 32) }
    ensures exact { IfOk result (λ all. (odr : Bool) (seen : Listed Seen) (live : Listed (Listed Bool)) → AreOwnShapes odr seen live names.now own.items → IsUnplaced odr seen live names.now all.shape all.places.items) }
    ensures units { result ≡ Err errors.Units → (odr : Bool) (seen : Listed Seen) (live : Listed (Listed Bool)) → AreOwnShapes odr seen live names.now own.items → 2 ^ 32 ≤ length (shape_of odr seen live).units }
{
    let mut units = pool;
    let mut plain = List::with_capacity(alloc, own.len())?;
    let mut images = List::with_capacity(alloc, own.len())?;
    let mut places = Vec::with_capacity(alloc, own.len())?;
    let mut object = 0;
    for one in own {
        let mut one = one;
        let before = number_behind(units.len(), one.units.len())?;
        let from = first_of(names, object + 1);
        let end = first_of(names, object + 2);
        places.push(Place { before, from, end })?;
        units.append(&mut one.units)?;
        plain.push(one.plain)?;
        images.push(one.images)?;
        object += 1;
    }
    let mut units = List::from_vec(units);
    settle_version(names, &mut units);
    let shape = Shape {
        units,
        plain,
        images,
    };
    Ok(Unplaced { shape, places })
}
