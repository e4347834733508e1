//! An object, read up to its units.

ghost use Rattle.std.specs.Prelude.{◌≡◌, ◌<◌, ◌^◌, length, IfOk};
ghost use Rattle.ds_base.specs.Reading.{Gives};
ghost use Rattle.dwarf_types.specs.SectionBytes.{bytes_in};
ghost use Rattle.reloc_table.specs.Parts;
ghost use Rattle.object_read.specs.Read.{read_of};
ghost use Rattle.reloc_table.specs.Tried.{LieInside};
ghost use Rattle.object_read.specs.Seen.{read_in};
ghost use Rattle.object_read.specs.Sound.{IsReadOf};

use crate::open::{DebugRelocs, OpenObject, open_object};
use ds_base::{List, ReadError};
use dwarf_types::{RawUnits, Sections};
use macho_read::Image;
use reloc_table::sections_in;
use std::alloc::Global;
use unit_tree::read_resolved_units;

/// What an object says whatever program it was linked to.
#[derive(Drop)]
pub struct ReadObject {
    pub image: Image,
    pub relocs: DebugRelocs,
    /// Its units and their entries, whose addresses and references are places of the object.
    pub units: RawUnits,
    /// The number of the entry to which each reference leads, in document order.
    pub numbers: List<u32>,
}

/// Reads the object in a file's bytes, for a program of this CPU type, up to its units.
///
/// Faults come in this order: those of the image; that it is no object of the CPU type; of the sections of `__DWARF` in
/// the image's order `CompressedSection` and `BadSection`; of the relocations those of each debug section, in the order of
/// the parts; of the units, and of the references between their entries. Of two debug sections of one name only the first
/// counts.
pub fn read_object(alloc: Global, bytes: &[u8], cpu: u32) -> Result<ReadObject, ReadError>
    requires { length bytes.now < 2 ^ 32 }
    ensures exact { Gives (read_in bytes.now) result (read_of bytes.now cpu) }
    ensures sound { IfOk result (IsReadOf bytes.now) }
{
    let (read, _) = read_with_sections(alloc, bytes, cpu)?;
    Ok(read)
}

/// The object as [`read_object`] gives it, and the bytes of its debug sections.
#[tactic(auto, unfolding(crate::specs::Read::read_of))]
pub fn read_with_sections(
    alloc: Global,
    bytes: &[u8],
    cpu: u32,
) -> Result<(ReadObject, Sections<'_>), ReadError>
    requires { length bytes.now < 2 ^ 32 }
    ensures exact { Gives (λ r. read_in bytes.now r.0) result (read_of bytes.now cpu) }
    ensures sound { IfOk result (λ r. IsReadOf bytes.now r.0) }
    ensures sections { IfOk result (λ r. bytes_in r.1 ≡ Parts.sections_in bytes.now r.0.image.sections) }
{
    let OpenObject {
        image,
        sections,
        relocs,
    } = open_object(alloc, bytes, cpu)?;
    let (units, numbers) = read_resolved_units(alloc, &sections)?;
    let read = ReadObject {
        image,
        relocs,
        units,
        numbers,
    };
    Ok((read, sections))
}

/// The bytes of the debug sections of an object that was read of this file.
pub fn sections_of<'a>(bytes: &'a [u8], read: &ReadObject) -> Sections<'a>
    requires { LieInside bytes.now read.now.image.sections }
    ensures { bytes_in result ≡ Parts.sections_in bytes.now read.now.image.sections }
{
    sections_in(bytes, read.image.sections.as_slice())
}
