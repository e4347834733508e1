//! Holes filled in place.

ghost use Rattle.std.specs.Prelude.{◌≡◌, ◌<◌, ◌≤◌, ◌+◌, ◌^◌, length};
ghost use Rattle.std.specs.List.{All};
ghost use Rattle.ds_base.specs.Room.{put};
ghost use Rattle.patches.specs.Filling.{fill_outer, fill_own, outer_bytes, own_bytes};
ghost use Rattle.patches.specs.Numbers.{own_number};

use crate::hole::{OFFSET_LEN, Outer, OuterPatch, Own, OwnPatch};
use crate::numbers::{OuterNumbers, own_in};
use ds_base::{put_bytes, put_u32, put_uleb4};

/// Fills what a unit of `len` bytes, whose nodes stand at `places`, tells.
pub(crate) fn fill_all_own(room: &mut [u8], patches: &[OwnPatch], len: u32, places: &[u32])
    requires small { All (λ place. place < 2 ^ 28) places.now }
    requires short { len < 2 ^ 28 }
    requires inside { All (λ p. p.at + 4 ≤ length room.old) patches.now }
    ensures { room.new ≡ fill_own (own_number len places.now) patches.now room.old }
{
    for patch in patches {
        fill_one_own(room, patch.at, patch.hole, len, places);
    }
}

fn fill_one_own(room: &mut [u8], at: usize, hole: Own, len: u32, places: &[u32])
    requires small { All (λ place. place < 2 ^ 28) places.now }
    requires short { len < 2 ^ 28 }
    requires inside { at + 4 ≤ length room.old }
    ensures { room.new ≡ put room.old at (own_bytes (own_number len places.now) hole) }
{
    let n = own_in(len, places, hole);
    match hole {
        Own::Size => put_u32(room, at, n),
        Own::Node(_) => put_u32(room, at, n),
        Own::Base(_) => put_uleb4(room, at, n),
    }
}

/// Fills what stands outside of the unit.
pub(crate) fn fill_all_outer<N: OuterNumbers>(room: &mut [u8], patches: &[OuterPatch], outside: &N)
    requires inside { All (λ p. p.at + 4 ≤ length room.old) patches.now }
    ensures { room.new ≡ fill_outer (N.number outside.now) patches.now room.old }
{
    for patch in patches {
        fill_one_outer(room, patch.at, patch.hole, outside);
    }
}

fn fill_one_outer<N: OuterNumbers>(room: &mut [u8], at: usize, hole: Outer, outside: &N)
    requires inside { at + 4 ≤ length room.old }
    ensures { room.new ≡ put room.old at (outer_bytes (N.number outside.now) hole) }
{
    put_bytes(
        room,
        at,
        &outside.number_of(hole).to_le_bytes()[..OFFSET_LEN],
    );
}
