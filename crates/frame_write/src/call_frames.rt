//! Call frame information: `__debug_frame` (DWARF 4, section 6.4.1).

ghost use Rattle.std.specs.Prelude.{◌≡◌, ◌++◌, length, OnOk};
ghost use Rattle.dwarf_types.specs.Frames.{frames_bytes};
ghost use Rattle.dwarf_types.specs.SeenFrames.{frame_seen};
ghost use Rattle.frame_write.specs.Known.{described_bytes, fde_bytes, frame_bytes, with_cie};

use crate::known_cies::{KnownCies, append_cie, no_cies};
use appending::{append_offset, append_u64};
use ds_base::dwarf::{ADDRESS_SIZE, OFFSET_SIZE};
use ds_base::{Bytes, NoMemory};
use dwarf_types::{FrameRef, OutFrames};
use std::alloc::Global;

/// How many bytes of an FDE stand between its length and its instructions: the place of its CIE, the first address, and
/// how many bytes it describes.
const DESCRIBED_LEN: usize = OFFSET_SIZE as usize + 2 * ADDRESS_SIZE as usize;

/// Puts the frames of a graph last: each CIE once, before the first FDE that names it.
///
/// Places of CIEs count from the first frame's, where the section begins. A length or a place that has no four bytes
/// is written by its lowest four.
pub fn append_frames(alloc: Global, out: &mut Bytes, frames: &OutFrames) -> Result<(), NoMemory>
    ensures { OnOk result (out.new ≡ out.old ++ frames_bytes frames.now) }
{
    let start = out.len();
    let mut known = no_cies(alloc);
    for k in 0..frames.len() {
        let at = out.len() - start;
        append_frame(out, &mut known, &frames.frame(k), at)?;
    }
    Ok(())
}

/// Puts a frame last, behind its CIE where that is new. `at` is how many bytes of the section are there.
fn append_frame<'a>(
    out: &mut Bytes,
    known: &mut KnownCies<'a>,
    frame: &FrameRef<'a>,
    at: usize,
) -> Result<(), NoMemory>
    ensures known { OnOk result (known.new ≡ with_cie known.old frame.now.cie.now at) }
    ensures written { OnOk result (out.new ≡ out.old ++ frame_bytes known.old (frame_seen frame.now) at) }
{
    let cie = append_cie(out, known, frame.cie, at)?;
    append_description(out, cie, frame)?;
    Ok(())
}

/// Puts an FDE last, whose CIE has a place; its length doesn't count its own four bytes.
fn append_description(out: &mut Bytes, cie: usize, frame: &FrameRef<'_>) -> Result<(), NoMemory>
    ensures { OnOk result (out.new ≡ out.old ++ fde_bytes cie (frame_seen frame.now)) }
{
    append_offset(out, DESCRIBED_LEN + frame.code.len())?;
    append_offset(out, cie)?;
    append_described(out, frame)?;
    Ok(())
}

/// Puts last what an FDE tells of a frame: its first address, how many bytes it has, and the instructions.
fn append_described(out: &mut Bytes, frame: &FrameRef<'_>) -> Result<(), NoMemory>
    ensures { OnOk result (out.new ≡ out.old ++ described_bytes (frame_seen frame.now)) }
{
    append_u64(out, frame.address)?;
    append_u64(out, frame.length)?;
    out.extend(frame.code)?;
    Ok(())
}
