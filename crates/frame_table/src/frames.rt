//! All frame descriptions of the section.

ghost use Rattle.std.specs.Prelude.{◌≡◌, ◌+◌, ◌≤◌, ◌<◌, ◌^◌, ◌⊎◌, ◌++◌, ◌∷◌, [], ℕ, length, take, slice_get, slice_set, Some, IfOk, IfSome, OnOk};
ghost use Rattle.std.specs.List.{All};
ghost use Rattle.std.specs.Option.{option_map};
ghost use Rattle.ds_base.specs.Reading.{Finds, Gives};
ghost use Rattle.dwarf_types.specs.SeenFrames.{raw_frame_seen};
ghost use Rattle.frame_table.specs.declared.frames.Named.{Named as ANamed};
ghost use Rattle.frame_table.specs.Entry.{content_of};
ghost use Rattle.frame_table.specs.Sharing.{HasCie};
ghost use Rattle.macho_read.specs.Sound.{IsSound as IsSoundImage};
ghost use Rattle.reloc_table.specs.Sound.{IsSound};
ghost use Rattle.frame_table.specs.Naming.{all_named};
ghost use Rattle.frame_table.specs.Frames.{frames_of};
ghost use Rattle.frame_table.specs.Order.{StandApart, IsFirstMissed, end_of, entry_of, frame_at, frames_among, is_missed};

use crate::description::{content, frame, read_description};
use crate::entry::{FrameEntry, read_entries};
use crate::naming::{Missed, find_cie, first_missed};
use ds_base::{Fault, Kind, NoMemory, Part, ReadError};
use dwarf_types::{RawFrameRef, RawFrames, Sections};
use macho_read::Image;
use reloc_table::Relocs;
use std::alloc::Global;

/// The frame descriptions of `__debug_frame`, in order (DWARF 4, section 6.4.1).
///
/// Each has the content of the CIE that it names, which may stand before it or behind it: the bytes behind the CIE's
/// id. `relocs` are those of the section, and the initial location is what the stored number means there. Faults are
/// placed in `__debug_frame`, in bytes from its start; they are `Truncated` and `BadFrame`, in the order of the entries.
///
/// The content of a CIE is held once for all descriptions that name it.
#[tactic(auto, unfolding(crate::specs::Frames::frames_of))]
pub fn read_frames(
    alloc: Global,
    sections: &Sections,
    relocs: &Relocs,
    image: &Image,
) -> Result<RawFrames, ReadError>
    requires size { length sections.now.frame.now < 2 ^ 32 }
    requires sound { IsSound image.now relocs.now }
    requires sound_image { IsSoundImage image.now }
    ensures { Gives (λ frames. frames) result (frames_of image.now relocs.now sections.now.frame.now) }
{
    let bytes = sections.frame;
    let entries = read_entries(alloc, bytes)?;
    let frames = frames_in(alloc, bytes, relocs, image, &entries.list)?;
    match entries.stop {
        Some(fault) => Err(ReadError::Faulty(fault)),
        None => Ok(frames),
    }
}

/// The frames of entries that stand one after the other, or the first fault in them.
fn frames_in(
    alloc: Global,
    bytes: &[u8],
    relocs: &Relocs,
    image: &Image,
    entries: &[FrameEntry],
) -> Result<RawFrames, ReadError>
    requires size { length bytes.now < 2 ^ 32 }
    requires sound { IsSound image.now relocs.now }
    requires sound_image { IsSoundImage image.now }
    requires apart { StandApart entries.now }
    requires within { All (λ e. e.end ≤ length bytes.now) entries.now }
    ensures { Gives (λ frames. frames) result (frames_among image.now relocs.now bytes.now entries.now) }
{
    let missed = first_missed(entries, bytes.len() as u64);
    let mut frames = RawFrames::new(alloc);
    let mut firsts = vec![in alloc; None; entries.len()]?;
    for i in 0..entries.len() {
        check_named(entries, bytes.len() as u64, missed, i)?;
        if let Some(named) = read_frame(bytes, relocs, image, entries, i)? {
            add(&mut frames, &mut firsts, &named)?;
        }
    }
    Ok(frames)
}

/// A frame, and the index of the CIE that it names.
#[derive(Clone, Copy)]
struct Named<'a> {
    cie: usize,
    frame: RawFrameRef<'a>,
}

/// Puts a frame behind the others. `firsts` has the first frame of each CIE, by the CIE's index.
fn add(
    frames: &mut RawFrames,
    firsts: &mut [Option<usize>],
    named: &Named<'_>,
) -> Result<(), NoMemory>
    requires within { named.now.cie < length firsts.old }
    requires first { (k : ℕ) → slice_get firsts.old named.now.cie ≡ Some (Some k) → HasCie frames.old k named.now.frame.cie.now }
    ensures frames { OnOk result (frames.new ≡ frames.old ++ raw_frame_seen named.now.frame ∷ []) }
    ensures firsts { OnOk result ((firsts.new ≡ firsts.old) ⊎ (firsts.new ≡ slice_set firsts.old named.now.cie (Some (length frames.old)))) }
{
    let frame = named.frame;
    if let Some(first) = firsts[named.cie] {
        return frames.push_sharing(first, frame.at, frame.length, frame.code);
    }
    let first = frames.len();
    frames.push(frame.cie, frame.at, frame.length, frame.code)?;
    firsts[named.cie] = Some(first);
    Ok(())
}

/// Tests that no FDE shows at an entry to have no CIE.
fn check_named(
    entries: &[FrameEntry],
    size: u64,
    missed: Option<Missed>,
    i: usize,
) -> Result<(), Fault>
    requires apart { StandApart entries.now }
    requires within { All (λ e. e.end ≤ size) entries.now }
    requires i { i < length entries.now }
    requires missed { IsFirstMissed (is_missed size entries.now) (length entries.now) (length entries.now) missed }
    requires behind { IfSome missed (λ m. i ≤ m.at) }
    ensures named { Finds (λ _. tt) result (all_named size (end_of entries.now i) (take (i + 1) entries.now)) }
    ensures behind { IfOk result (λ _. IfSome missed (λ m. i < m.at)) }
{
    match missed {
        Some(missed) if missed.at == i => Err(Fault {
            kind: Kind::BadFrame,
            section: Part::Frame,
            place: entries[missed.entry].place,
        }),
        _ => Ok(()),
    }
}

/// The frame of an entry that is an FDE and names a CIE, or the fault in the entry's values.
fn read_frame<'a>(
    bytes: &'a [u8],
    relocs: &Relocs,
    image: &Image,
    entries: &[FrameEntry],
    i: usize,
) -> Result<Option<Named<'a>>, Fault>
    requires size { length bytes.now < 2 ^ 32 }
    requires sound { IsSound image.now relocs.now }
    requires sound_image { IsSoundImage image.now }
    requires apart { StandApart entries.now }
    requires within { All (λ e. e.end ≤ length bytes.now) entries.now }
    requires i { i < length entries.now }
    ensures frame { Finds (option_map (λ (n : ANamed). raw_frame_seen n.frame)) result (frame_at image.now relocs.now bytes.now entries.now (entry_of entries.now i)) }
    ensures cie { IfOk result (λ found. IfSome found (λ n. (n.cie < length entries.now) × (n.frame.cie.now ≡ content_of bytes.now (entry_of entries.now n.cie)))) }
{
    let entry = &entries[i];
    if entry.is_cie() {
        return Ok(None);
    }
    let description = read_description(bytes, entry)?;
    match find_cie(entries, u64::from(entry.id)) {
        None => Ok(None),
        Some(cie) => {
            let frame = frame(
                relocs,
                image,
                content(bytes, &entries[cie]),
                entry,
                &description,
            );
            Ok(Some(Named { cie, frame }))
        }
    }
}
