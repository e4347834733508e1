//! Where the entries of an object went.

ghost use Rattle.std.specs.Prelude.{◌≡◌, ◌<◌, Some, length};
ghost use Rattle.clone_values.specs.Images.{BaseAmong, image_at};
ghost use Rattle.dwarf_types.specs.LinkedExpressions.{base_node};

use dwarf_types::{Base, Target};

/// Where entry `k` went, by the images of the object's entries.
pub(crate) fn image_at(images: &[Option<Target>], k: u32) -> Option<Target>
    requires { k < length images.now }
    ensures { result ≡ image_at images.now k }
{
    images[k as usize]
}

/// The node of a base type, which is one of the unit; none for the generic type.
pub(crate) fn base_node(images: &[Option<Target>], base: Base) -> Option<u32>
    requires { BaseAmong (length images.now) (Some base) }
    ensures { result ≡ base_node (image_at images.now) base }
{
    match base {
        Base::Generic => None,
        Base::Entry(k) => Some(image_at(images, k)?.node),
    }
}
