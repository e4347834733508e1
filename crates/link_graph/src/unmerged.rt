//! Shapes that grow object by object, where nothing is merged.

ghost use Rattle.std.specs.Prelude.{◌≡◌, ◌≤◌, ◌^◌, ◌++◌, ◌∷◌, [], ℕ, Bool, false, List as Listed, Err, length, OnOk};
ghost use Rattle.dwarf_types.specs.declared.analysis.Analysis.{Analysis as Seen};
ghost use Rattle.dwarf_types.specs.Sound.{IsSound};
ghost use Rattle.link_graph.specs.declared.shape_error.ShapeError.TheVariants as errors;
ghost use Rattle.link_graph.specs.Merged.{shape_of};
ghost use Rattle.link_graph.specs.OwnShapes.{IsOwnShape, StandsBehind};
ghost use Rattle.link_graph.specs.Passes.{marked};

use crate::behind::{number_behind, place_behind};
use crate::object::ObjectShape;
use crate::shape_error::ShapeError;
use ds_base::{List, NoMemory};
use dwarf_types::{Shape, ShapeUnit};
use std::alloc::Global;

/// The shape of no objects.
pub fn empty_shape(alloc: Global) -> Shape
    ensures { result ≡ shape_of false [] [] }
{
    Shape {
        units: List::new(alloc),
        plain: List::new(alloc),
        images: List::new(alloc),
    }
}

/// Puts an object behind those of a shape in which nothing is merged.
///
/// `own` is what the object gives ([`kept_shape`](crate::kept_shape)) under the number of the objects before it, by its
/// live entries. Its units stand behind those of the shape, and references to its entries lead there. The units and
/// nodes of the objects before stay as they are. A shape with 2^32 units or more is not made ([`ShapeError::Units`]);
/// what a refusal leaves of the shape is not said.
pub fn add_object(shape: &mut Shape, own: ObjectShape) -> Result<(), ShapeError>
    requires own { (i : ℕ) × (object : Seen) × (row : Listed Bool) × IsSound object × (length row ≡ length object.entries) × IsOwnShape i (marked object row) own }
    ensures added { (seen : Listed Seen) (live : Listed (Listed Bool)) (object : Seen) (row : Listed Bool) → StandsBehind seen live object row
        → shape.old ≡ shape_of false seen live → IsOwnShape (length seen) (marked object row) own
        → OnOk result (shape.new ≡ shape_of false (seen ++ object ∷ []) (live ++ row ∷ [])) }
    ensures many { result ≡ Err errors.Units → (seen : Listed Seen) (live : Listed (Listed Bool)) (object : Seen) (row : Listed Bool) → StandsBehind seen live object row
        → shape.old ≡ shape_of false seen live → IsOwnShape (length seen) (marked object row) own
        → 2 ^ 32 ≤ length (shape_of false (seen ++ object ∷ []) (live ++ row ∷ [])).units }
{
    let mut own = own;
    let before = number_behind(shape.units.len(), own.units.len())?;
    place_behind(own.images.as_mut_slice(), before);
    append(&mut shape.units, own.units)?;
    shape.plain.push(own.plain)?;
    shape.images.push(own.images)?;
    Ok(())
}

/// Puts units behind others.
fn append(units: &mut List<ShapeUnit>, more: Vec<ShapeUnit>) -> Result<(), NoMemory>
    ensures { OnOk result (units.new ≡ units.old ++ more.items) }
{
    for unit in more {
        units.push(unit)?;
    }
    Ok(())
}
