//! An object, opened: what every reader of its debug sections stands on.

ghost use Rattle.std.specs.Prelude.{◌≡◌, ◌<◌, ◌^◌, [], length, IfOk, OnOk};
ghost use Rattle.ds_base.specs.Reading.{Gives};
ghost use Rattle.dwarf_types.specs.SectionBytes.{bytes_in};
ghost use Rattle.macho_read.specs.Sound.{IsSound as IsSoundImage};
ghost use Rattle.reloc_table.specs.Sound.{IsSound};
ghost use Rattle.object_read.specs.Opened as spec;
ghost use Rattle.reloc_table.specs.Tried.{AreSmall};
ghost use Rattle.object_read.specs.Sound.{AreSound};

use ds_base::{List, Part, ReadError};
use dwarf_types::Sections;
use macho_read::{Image, Role, check_kind, read_image};
use reloc_table::{Compressed, Relocs, check_sections, relocs, section_of, sections_in};
use std::alloc::Global;

/// The relocations of an object's debug sections that hold addresses.
#[derive(Drop)]
pub struct DebugRelocs {
    pub info: Relocs,
    pub addr: Relocs,
    pub line: Relocs,
    pub ranges: Relocs,
    pub rnglists: Relocs,
    pub loc: Relocs,
    pub loclists: Relocs,
    pub frame: Relocs,
}

/// An object with its debug sections, whose bytes are the file's.
#[derive(Drop)]
pub(crate) struct OpenObject<'a> {
    pub(crate) image: Image,
    pub(crate) sections: Sections<'a>,
    pub(crate) relocs: DebugRelocs,
}

/// Opens the object in a file's bytes, for a program of this CPU type (mach-o/loader.h, mach-o/reloc.h).
///
/// Faults come in this order: those of the image; that it is no object of the CPU type; of the sections of
/// `__DWARF` in the image's order `CompressedSection` and `BadSection`; of the relocations those of each debug
/// section, in the order of the parts. Of two debug sections of one name only the first counts.
#[tactic(auto, unfolding(crate::specs::Opened::opened_of))]
pub(crate) fn open_object(
    alloc: Global,
    bytes: &[u8],
    cpu: u32,
) -> Result<OpenObject<'_>, ReadError>
    ensures exact { Gives spec.opened_seen result (spec.opened_of bytes.now cpu) }
    ensures sound_image { IfOk result (λ o. IsSoundImage o.image) }
    ensures sound { IfOk result (λ o. AreSound o.image o.relocs) }
    ensures small { length bytes.now < 2 ^ 32 → IfOk result (λ o. AreSmall (bytes_in o.sections)) }
{
    let image = read_image(alloc, bytes)?;
    check_kind(&image, Role::Object { cpu })?;
    check_sections(alloc, bytes, image.sections.as_slice(), Compressed::Tried)?;
    let relocs = debug_relocs(alloc, bytes, &image)?;
    let sections = sections_in(bytes, image.sections.as_slice());
    Ok(OpenObject {
        image,
        sections,
        relocs,
    })
}

/// The relocations of all parts of the file.
fn debug_relocs(alloc: Global, bytes: &[u8], image: &Image) -> Result<DebugRelocs, ReadError>
    requires { IsSoundImage image.now }
    ensures exact { Gives (λ relocs. relocs) result (spec.relocs_in bytes.now image.now) }
    ensures sound { IfOk result (AreSound image.now) }
{
    let mut relocs = no_relocs(alloc);
    read_relocs(alloc, bytes, image, &mut relocs)?;
    Ok(relocs)
}

/// No relocations.
fn no_relocs(alloc: Global) -> DebugRelocs {
    DebugRelocs {
        info: none(alloc),
        addr: none(alloc),
        line: none(alloc),
        ranges: none(alloc),
        rnglists: none(alloc),
        loc: none(alloc),
        loclists: none(alloc),
        frame: none(alloc),
    }
}

/// Reads the relocations of all parts of the file, in their order. Those of a part without addresses are only tried.
#[tactic(auto, unfolding(crate::specs::Opened::relocs_in))]
fn read_relocs(
    alloc: Global,
    bytes: &[u8],
    image: &Image,
    relocs: &mut DebugRelocs,
) -> Result<(), ReadError>
    requires { IsSoundImage image.now }
    ensures exact { Gives (λ _. relocs.new) result (spec.relocs_in bytes.now image.now) }
    ensures sound { OnOk result (AreSound image.now relocs.new) }
{
    relocs.info = part_relocs(alloc, bytes, image, Part::Info)?;
    part_relocs(alloc, bytes, image, Part::Abbrev)?;
    part_relocs(alloc, bytes, image, Part::Str)?;
    part_relocs(alloc, bytes, image, Part::StrOffs)?;
    relocs.addr = part_relocs(alloc, bytes, image, Part::Addr)?;
    relocs.line = part_relocs(alloc, bytes, image, Part::Line)?;
    part_relocs(alloc, bytes, image, Part::LineStr)?;
    relocs.ranges = part_relocs(alloc, bytes, image, Part::Ranges)?;
    relocs.rnglists = part_relocs(alloc, bytes, image, Part::Rnglists)?;
    relocs.loc = part_relocs(alloc, bytes, image, Part::Loc)?;
    relocs.loclists = part_relocs(alloc, bytes, image, Part::Loclists)?;
    part_relocs(alloc, bytes, image, Part::Aranges)?;
    relocs.frame = part_relocs(alloc, bytes, image, Part::Frame)?;
    Ok(())
}

/// The relocations of a part of the file; a section that is not there has none.
fn part_relocs(alloc: Global, bytes: &[u8], image: &Image, part: Part) -> Result<Relocs, ReadError>
    requires { IsSoundImage image.now }
    ensures exact { Gives (λ relocs. relocs) result (spec.part_relocs bytes.now image.now part) }
    ensures sound { IfOk result (IsSound image.now) }
{
    match section_of(image.sections.as_slice(), part) {
        Some(section) => relocs(alloc, bytes, image, section),
        None => Ok(none(alloc)),
    }
}

/// No relocations of a part.
fn none(alloc: Global) -> Relocs
    ensures { result.list ≡ [] }
{
    Relocs {
        list: List::new(alloc),
    }
}
