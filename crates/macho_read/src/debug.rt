//! The bytes of a debug section.

ghost use Rattle.std.specs.Prelude.{◌≡◌, IsTrue};
ghost use Rattle.ds_base.specs.Reading.{Finds};
ghost use Rattle.macho_read.specs.Debug.{section_in};

use crate::fields::is_named;
use crate::image::Section;
use ds_base::macho::{
    S_ZEROFILL, SECT_DEBUG_ABBREV, SECT_DEBUG_ADDR, SECT_DEBUG_ARANGES, SECT_DEBUG_FRAME,
    SECT_DEBUG_INFO, SECT_DEBUG_LINE, SECT_DEBUG_LINE_STR, SECT_DEBUG_LOC, SECT_DEBUG_LOCLISTS,
    SECT_DEBUG_RANGES, SECT_DEBUG_RNGLISTS, SECT_DEBUG_STR, SECT_DEBUG_STR_OFFS, SECT_ZDEBUG,
    SEG_DWARF,
};
use ds_base::{Fault, Kind, Part, cut};

/// The bytes of a debug section in its file.
///
/// `index` is the section's number in its image, counted from 0. A section whose name begins with `__zdebug`
/// is `CompressedSection`, in the commands, at its index. One whose bytes pass the file, or that is filled
/// with zeros and not empty (mach-o/loader.h, S_ZEROFILL), is `BadSection`, in the section, at 0.
#[tactic(auto, unfolding(crate::specs::Debug::section_in))]
pub fn section_bytes<'a>(bytes: &'a [u8], section: &Section, index: u32) -> Result<&'a [u8], Fault>
    requires { IsTrue (Rattle.macho_read.specs.Debug.is_debug section.now) }
    ensures { Finds (λ found. found.now) result (section_in bytes.now section.now index) }
{
    if is_compressed(section) {
        return Err(Fault {
            kind: Kind::CompressedSection,
            section: Part::Commands,
            place: u64::from(index),
        });
    }
    let Some(part) = debug_part(section.name.as_slice()) else {
        unreachable!()
    };
    let bad_section = Fault {
        kind: Kind::BadSection,
        section: part,
        place: 0,
    };
    let offset = section.offset as usize;
    if bytes.len() < offset || ((bytes.len() - offset) as u64) < section.size {
        return Err(bad_section);
    }
    if section.flags % 256 == S_ZEROFILL && section.size != 0 {
        return Err(bad_section);
    }
    Ok(cut(bytes, offset, section.size as usize))
}

/// Whether a section is a debug section, compressed or not: its segment is `__DWARF`, and its name is that of
/// a part of the file, or begins with `__zdebug`.
pub fn is_debug(section: &Section) -> bool
    ensures { result ≡ Rattle.macho_read.specs.Debug.is_debug section.now }
{
    is_named(&SEG_DWARF, section.segment.as_slice())
        && (is_compressed(section) || debug_part(section.name.as_slice()).is_some())
}

fn is_compressed(section: &Section) -> bool
    ensures { result ≡ Rattle.macho_read.specs.Debug.is_compressed section.now }
{
    section.name.as_slice().starts_with(&SECT_ZDEBUG)
}

/// The part of a file that the debug section of this name is, if it is one that is read.
#[tactic(auto, unfolding(crate::specs::Debug::debug_part))]
pub fn debug_part(name: &[u8]) -> Option<Part>
    ensures { result ≡ Rattle.macho_read.specs.Debug.debug_part name.now }
{
    if is_named(&SECT_DEBUG_INFO, name) {
        Some(Part::Info)
    } else if is_named(&SECT_DEBUG_ABBREV, name) {
        Some(Part::Abbrev)
    } else if is_named(&SECT_DEBUG_STR, name) {
        Some(Part::Str)
    } else if is_named(&SECT_DEBUG_STR_OFFS, name) {
        Some(Part::StrOffs)
    } else if is_named(&SECT_DEBUG_ADDR, name) {
        Some(Part::Addr)
    } else if is_named(&SECT_DEBUG_LINE, name) {
        Some(Part::Line)
    } else if is_named(&SECT_DEBUG_LINE_STR, name) {
        Some(Part::LineStr)
    } else if is_named(&SECT_DEBUG_RANGES, name) {
        Some(Part::Ranges)
    } else if is_named(&SECT_DEBUG_RNGLISTS, name) {
        Some(Part::Rnglists)
    } else if is_named(&SECT_DEBUG_LOC, name) {
        Some(Part::Loc)
    } else if is_named(&SECT_DEBUG_LOCLISTS, name) {
        Some(Part::Loclists)
    } else if is_named(&SECT_DEBUG_ARANGES, name) {
        Some(Part::Aranges)
    } else if is_named(&SECT_DEBUG_FRAME, name) {
        Some(Part::Frame)
    } else {
        None
    }
}
