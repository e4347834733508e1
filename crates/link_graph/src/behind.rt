//! The units of an object behind others: their numbers, and where references to the object's entries lead.

ghost use Rattle.std.specs.Prelude.{◌≡◌, ◌<◌, ◌≤◌, ◌+◌, ◌^◌, ◌↔◌, map, IsErr, IfOk, IfSome};
ghost use Rattle.std.specs.List.{All};
ghost use Rattle.link_graph.specs.OwnShapes.{target_behind};

use crate::shape_error::ShapeError;
use dwarf_types::Target;

/// The number of the first of some units behind others, unless that of the last would pass 32 bits.
pub(crate) fn number_behind(before: usize, units: usize) -> Result<u32, ShapeError>
    ensures number { IfOk result (λ number. (number ≡ before) × (before + units < 2 ^ 32)) }
    ensures full { IsErr result ↔ (2 ^ 32 ≤ before + units) }
{
    if before.saturating_add(units) > u32::MAX as usize {
        return Err(ShapeError::Units);
    }
    Ok(before as u32)
}

/// Lets references to the entries of an object lead where they lead behind so many units.
pub(crate) fn place_behind(images: &mut [Option<Target>], before: u32)
    requires { All (λ image. IfSome image (λ target. before + target.unit < 2 ^ 32)) images.old }
    ensures { images.new ≡ map (target_behind before) images.old }
{
    for i in 0..images.len() {
        images[i] = target_behind(before, images[i]);
    }
}

/// A node of a unit that stands behind so many others.
fn target_behind(before: u32, image: Option<Target>) -> Option<Target>
    requires { IfSome image (λ target. before + target.unit < 2 ^ 32) }
    ensures { result ≡ target_behind before image }
{
    let image = image?;
    Some(Target {
        unit: before + image.unit,
        node: image.node,
    })
}
