//! Whether an image can be the program, one of its objects, or the image of a bundle.

ghost use Rattle.std.specs.Prelude.{◌≡◌, take, drop};
ghost use Rattle.ds_base.specs.Reading.{Finds};
ghost use Rattle.macho_read.specs.Kind.{dwarf_at, kind_of, not_linked};

use crate::fields::is_named;
use crate::header::{header_fault, is_known_cpu};
use crate::image::{Image, Section, Segment};
use ds_base::macho::{MH_DSYM, MH_OBJECT, SEG_DWARF};
use ds_base::{Fault, Kind, Part};

/// What an image is read for.
#[derive(Clone, Copy)]
pub enum Role {
    /// The linked program.
    Program,
    /// An object of a program with this CPU type.
    Object { cpu: u32 },
    /// The image of a bundle that was written.
    Bundle,
}

/// Tests that an image can play a role.
///
/// Its CPU type is one of the two that are read, and an object's is the program's (`WrongCpu`, at the header's
/// offset 4); subtypes aren't compared. An object has the file type MH_OBJECT, a program any other, and a bundle's image
/// MH_DSYM (`BadFileType`, at 12). A program has neither a segment nor a section of `__DWARF` (`AlreadyLinked`, in the
/// commands, at the segment's index, counted from 0). They are tried in this order.
pub fn check_kind(image: &Image, role: Role) -> Result<(), Fault>
    ensures { Finds (λ _. tt) result (kind_of image.now role) }
{
    if is_wrong_cpu(role, image.cpu) {
        return Err(header_fault(Kind::WrongCpu, 4));
    }
    if is_wrong_type(role, image.filetype) {
        return Err(header_fault(Kind::BadFileType, 12));
    }
    match role {
        Role::Program => check_not_linked(image.segments.as_slice(), image.sections.as_slice()),
        Role::Object { .. } => Ok(()),
        Role::Bundle => Ok(()),
    }
}

/// Whether a CPU type is none of the two, or an object's isn't the program's.
fn is_wrong_cpu(role: Role, cpu: u32) -> bool
    ensures { result ≡ Rattle.macho_read.specs.Kind.is_wrong_cpu role cpu }
{
    match role {
        Role::Program => !is_known_cpu(cpu),
        Role::Object { cpu: program } => !is_known_cpu(cpu) || cpu != program,
        Role::Bundle => !is_known_cpu(cpu),
    }
}

/// Whether a program is an object, an object is anything else, or a bundle's image is none.
fn is_wrong_type(role: Role, filetype: u32) -> bool
    ensures { result ≡ Rattle.macho_read.specs.Kind.is_wrong_type role filetype }
{
    match role {
        Role::Program => filetype == MH_OBJECT,
        Role::Object { .. } => filetype != MH_OBJECT,
        Role::Bundle => filetype != MH_DSYM,
    }
}

/// Tests that no segment is named `__DWARF` and has no section of that segment.
fn check_not_linked(segments: &[Segment], sections: &[Section]) -> Result<(), Fault>
    ensures { Finds (λ _. tt) result (not_linked (dwarf_at segments.now sections.now)) }
{
    let mut rest = sections;
    for (k, segment) in segments.iter().enumerate() {
        let (own, others) = split_sections(rest, segment.sections as usize);
        if is_named(&SEG_DWARF, segment.name.as_slice()) || has_dwarf(own) {
            return Err(already_linked(k));
        }
        rest = others;
    }
    Ok(())
}

/// So many sections from the front, and the others; all and none where there are fewer. The sections of an image stand in
/// the order of its segments, each of which tells how many are its own.
pub fn split_sections(sections: &[Section], count: usize) -> (&[Section], &[Section])
    ensures own { result.0.now ≡ take count sections.now }
    ensures others { result.1.now ≡ drop count sections.now }
{
    if count < sections.len() {
        sections.split_at(count)
    } else {
        (sections, &[])
    }
}

/// Whether a section has the segment name `__DWARF`.
fn has_dwarf(sections: &[Section]) -> bool
    ensures { result ≡ Rattle.macho_read.specs.Kind.has_dwarf sections.now }
{
    sections
        .iter()
        .any(|s| is_named(&SEG_DWARF, s.segment.as_slice()))
}

/// The fault of the segment of this index.
fn already_linked(k: usize) -> Fault
    ensures { result ≡ Rattle.macho_read.specs.Kind.already_linked k }
{
    Fault {
        kind: Kind::AlreadyLinked,
        section: Part::Commands,
        place: k as u64,
    }
}
