//! The numbers that are put into holes.

ghost use Rattle.std.specs.Prelude.{◌≡◌, slice_index_or};
ghost use Rattle.patches.specs.Numbers.{own_number};

use crate::hole::{Outer, Own};
use ds_base::dwarf::OFFSET_SIZE;

/// What knows where all stands that holes name outside of their unit. `number` is the number of each hole.
pub trait OuterNumbers {
    ghost use Rattle.std.specs.Prelude.{◌≡◌, ℕ};
    ghost use Rattle.patches.specs.declared.hole.Outer.{Outer as Hole};

    ghost number: { Self → Hole → ℕ };

    /// The number of a hole. Its four lowest bytes are written.
    fn number_of(&self, hole: Outer) -> u128
        ensures { result ≡ number self.now hole };
}

/// The number of a hole for what a unit of `len` bytes, whose nodes stand at `places`, tells.
pub(crate) fn own_in(len: u32, places: &[u32], hole: Own) -> u32
    ensures { result ≡ own_number len places.now hole }
{
    match hole {
        Own::Size => len.saturating_sub(u32::from(OFFSET_SIZE)),
        Own::Node(k) => place_or(places, k as usize, len),
        Own::Base(k) => place_or(places, k as usize, len),
    }
}

/// A place by its number; for all numbers behind the last one it is the end.
pub fn place_or(places: &[u32], i: usize, end: u32) -> u32
    ensures { result ≡ slice_index_or places.now i end }
{
    match places.get(i) {
        Some(place) => *place,
        None => end,
    }
}
