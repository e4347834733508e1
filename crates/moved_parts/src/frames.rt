//! Frame descriptions (DWARF 4, section 6.4.1).

ghost use Rattle.std.specs.Prelude.{◌≡◌, map as listed, IfOk};
ghost use Rattle.addr_map.specs.Moved.{moved as moved_to};
ghost use Rattle.addr_map.specs.Sound.{IsSound};
ghost use Rattle.moved_parts.specs.Frames.{frames_moved};

use addr_map::{AddrMap, moved};
use ds_base::NoMemory;
use dwarf_types::{OutFrames, RawFrames};
use std::alloc::Global;

/// The frame descriptions whose first instruction went to the linked program, in order. What they hold is moved on, and
/// not copied.
pub fn move_frames(alloc: Global, map: &AddrMap, frames: RawFrames) -> Result<OutFrames, NoMemory>
    requires { IsSound map.now }
    ensures { IfOk result (λ out. out ≡ frames_moved map.now frames) }
{
    let addresses = moved_starts(alloc, map, &frames)?;
    frames.into_linked(alloc, &addresses)
}

/// Where the first instruction of each frame went, if it went to the linked program.
fn moved_starts(
    alloc: Global,
    map: &AddrMap,
    frames: &RawFrames,
) -> Result<Vec<Option<u64>>, NoMemory>
    requires { IsSound map.now }
    ensures { IfOk result (λ starts. starts.items ≡ listed (λ f. moved_to map.now f.at) frames.now) }
{
    let mut starts = Vec::with_capacity(alloc, frames.len())?;
    for k in 0..frames.len() {
        starts.push(moved(map, &frames.frame(k).at))?;
    }
    Ok(starts)
}
