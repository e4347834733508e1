//! What an FDE says.

ghost use Rattle.std.specs.Prelude.{◌≡◌, ◌+◌, ◌≤◌, ◌<◌, ◌^◌, length};
ghost use Rattle.ds_base.specs.Reading.{Finds};
ghost use Rattle.dwarf_types.specs.SeenFrames.{raw_frame_seen};
ghost use Rattle.macho_read.specs.Sound.{IsSound as IsSoundImage};
ghost use Rattle.reloc_table.specs.Sound.{IsSound};
ghost use Rattle.frame_table.specs.Entry.{content_of};
ghost use Rattle.frame_table.specs.Description.{description_at, framed, seen};

use crate::entry::FrameEntry;
use ds_base::{Cursor, Fault, Part};
use dwarf_types::RawFrameRef;
use macho_read::Image;
use reloc_table::{Relocs, resolve};

/// What an FDE says behind its id (DWARF 4, section 6.4.1).
#[derive(Drop)]
pub(crate) struct Description<'a> {
    /// The initial location, as it is stored.
    pub(crate) location: u64,
    /// "The number of bytes of program instructions described by this entry."
    pub(crate) length: u64,
    /// The call frame instructions.
    pub(crate) code: &'a [u8],
}

/// What an entry says that is an FDE.
#[tactic(auto, unfolding(crate::specs::Description::description_at))]
pub(crate) fn read_description<'a>(
    bytes: &'a [u8],
    entry: &FrameEntry,
) -> Result<Description<'a>, Fault>
    requires filled { entry.now.place + 8 ≤ entry.now.end }
    requires within { entry.now.end ≤ length bytes.now }
    ensures { Finds seen result (description_at bytes.now entry.now) }
{
    let mut cursor = Cursor::new(bytes, Part::Frame, entry.place + 8, entry.end);
    let location = cursor.u64()?;
    let length = cursor.u64()?;
    let left = cursor.left();
    let code = cursor.skip(left)?;
    Ok(Description {
        location,
        length,
        code,
    })
}

/// The content of an entry: what stands behind its id.
pub(crate) fn content<'a>(bytes: &'a [u8], entry: &FrameEntry) -> &'a [u8]
    requires filled { entry.now.place + 8 ≤ entry.now.end }
    requires within { entry.now.end ≤ length bytes.now }
    ensures { result.now ≡ content_of bytes.now entry.now }
{
    &bytes[entry.place as usize + 8..entry.end as usize]
}

/// The frame of an FDE, with the content of its CIE.
pub(crate) fn frame<'a>(
    relocs: &Relocs,
    image: &Image,
    cie: &'a [u8],
    entry: &FrameEntry,
    description: &Description<'a>,
) -> RawFrameRef<'a>
    requires sound { IsSound image.now relocs.now }
    requires sound_image { IsSoundImage image.now }
    requires small { entry.now.place + 8 < 2 ^ 32 }
    ensures { raw_frame_seen result ≡ framed image.now relocs.now entry.now cie.now (seen description.now) }
{
    let place = entry.place + 8;
    RawFrameRef {
        cie,
        at: resolve(relocs, image, place as u32, description.location),
        length: description.length,
        code: description.code,
    }
}
