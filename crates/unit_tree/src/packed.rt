//! References as they are kept until all entries are known.

ghost use Rattle.std.specs.Prelude.{◌≡◌, ◌<◌, IfSome};
ghost use Rattle.unit_tree.specs.Packed.{unit_of};

use crate::reference::Reference;
use std::marker::Model;

/// In the place of a unit's number: the entry may be of any unit.
const ANY_UNIT: u32 = 0xffff_ffff;

/// A reference in 12 bytes. Contracts see the [`Reference`].
#[derive(Drop)]
pub(crate) struct PackedReference {
    place: u32,
    target: u32,
    unit: u32,
}

impl Model for PackedReference {
    ghost use Rattle.unit_tree.specs.declared.reference.Reference.{Reference};
    ghost use Rattle.unit_tree.specs.Packed.{unit_of};

    ghost Value = { Reference };

    ghost view = { λ r. record { place = r.place; target = r.target; unit = unit_of r.unit } };
}

impl PackedReference {
    /// A reference, packed.
    pub(crate) fn new(reference: Reference) -> PackedReference
        requires { IfSome reference.unit (λ unit. unit < ANY_UNIT) }
        ensures { result ≡ reference }
    {
        PackedReference {
            place: reference.place,
            target: reference.target,
            unit: packed_unit(reference.unit),
        }
    }

    /// The reference.
    pub(crate) fn unpacked(&self) -> Reference
        ensures { result ≡ self.now }
    {
        Reference {
            place: self.place,
            target: self.target,
            unit: unpacked_unit(self.unit),
        }
    }
}

/// The number that stands for a unit, or for any.
fn packed_unit(unit: Option<u32>) -> u32
    requires { IfSome unit (λ unit. unit < ANY_UNIT) }
    ensures { unit_of result ≡ unit }
{
    match unit {
        None => ANY_UNIT,
        Some(number) => number,
    }
}

/// The unit that a number stands for, if it can't be any.
fn unpacked_unit(number: u32) -> Option<u32>
    ensures { result ≡ unit_of number }
{
    if number == ANY_UNIT {
        None
    } else {
        Some(number)
    }
}
