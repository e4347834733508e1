//! The relocations of a debug section.

ghost use Rattle.std.specs.Prelude.{◌≡◌, ◌*◌, ◌+◌, ◌≤◌, length, drop, IsTrue, IfOk, OnOk};
ghost use Rattle.ds_base.specs.Reading.{Finds, Gives};
ghost use Rattle.macho_read.specs.Sound.{IsSound as IsSoundImage};
ghost use Rattle.macho_read.specs.Symbols.{each};
ghost use Rattle.reloc_table.specs.Relocation.{reloc_of};
ghost use Rattle.reloc_table.specs.Table.{all_apart, by_place, relocs_in, relocs_of, table_in};
ghost use Rattle.reloc_table.specs.Sound.{IsSound};

use crate::relocation::{Reloc, Relocs, read_reloc};
use ds_base::macho::RELOCATION_INFO_SIZE;
use ds_base::{Fault, Kind, List, NoMemory, Part, ReadError, bytes_from};
use macho_read::{Image, Section, debug_part, is_debug};
use std::alloc::Global;

/// The relocations of a debug section, by rising places (mach-o/reloc.h).
///
/// `bytes` are those of the file, and `section` is one of the image's. Faults are placed in the section's part:
/// `Truncated`, where the table passes the file, at 0; then, of each relocation in the order of the file,
/// `RelocKind`, `RelocPlace` and `RelocSymbol` at its index in the table, counted from 0; then `RelocOverlap`, of the
/// first pair in the order of places that is less than 8 bytes apart, at the later one's place.
#[tactic(auto, unfolding(crate::specs::Table::relocs_of))]
pub fn relocs(
    alloc: Global,
    bytes: &[u8],
    image: &Image,
    section: &Section,
) -> Result<Relocs, ReadError>
    requires debug { IsTrue (Rattle.reloc_table.specs.Table.is_part section.now) }
    requires sound { IsSoundImage image.now }
    ensures exact { Gives (λ relocs. relocs) result (relocs_of bytes.now image.now section.now) }
    ensures sound { IfOk result (IsSound image.now) }
{
    let Some(part) = debug_part(section.name.as_slice()) else {
        unreachable!()
    };
    read_relocs(alloc, bytes, image, section, part)
}

/// Whether a section is a debug section that is read: its segment is `__DWARF`, and its name is that of a part of
/// the file.
pub fn is_part(section: &Section) -> bool
    ensures { result ≡ Rattle.reloc_table.specs.Table.is_part section.now }
{
    is_debug(section) && debug_part(section.name.as_slice()).is_some()
}

/// The relocations of the section that is this part of the file.
#[tactic(auto, unfolding(crate::specs::Table::relocs_in))]
fn read_relocs(
    alloc: Global,
    bytes: &[u8],
    image: &Image,
    section: &Section,
    part: Part,
) -> Result<Relocs, ReadError>
    ensures exact { Gives (λ relocs. relocs) result (relocs_in bytes.now image.now section.now part) }
    ensures sound { IfOk result (IsSound image.now) }
{
    let table = find_table(bytes, section, part)?;
    let mut relocs = read_entries(alloc, table, image, section, part)?;
    sort_by_place(&mut relocs)?;
    check_apart(&relocs, part)?;
    Ok(Relocs {
        list: List::from_vec(relocs),
    })
}

/// The bytes from the section's table on.
#[tactic(auto, unfolding(crate::specs::Table::table_in))]
fn find_table<'a>(bytes: &'a [u8], section: &Section, part: Part) -> Result<&'a [u8], Fault>
    ensures is { Finds (λ table. table.now) result (table_in bytes.now section.now part) }
    ensures len { IfOk result (λ table. 8 * section.now.nreloc ≤ length table.now) }
{
    let start = section.reloff as usize;
    let size = RELOCATION_INFO_SIZE as usize * section.nreloc as usize;
    if bytes.len() < start + size {
        return Err(Fault {
            kind: Kind::Truncated,
            section: part,
            place: 0,
        });
    }
    Ok(bytes_from(bytes, start))
}

/// The relocations of the table that the bytes begin with, in the order of the file.
fn read_entries(
    alloc: Global,
    table: &[u8],
    image: &Image,
    section: &Section,
    part: Part,
) -> Result<Vec<Reloc>, ReadError>
    requires { 8 * section.now.nreloc ≤ length table.now }
    ensures { Gives (λ relocs. relocs.items) result (each (λ i. reloc_of image.now section.now part i (drop (8 * i) table.now)) section.now.nreloc 0) }
{
    let mut relocs = Vec::new(alloc);
    for i in 0..section.nreloc {
        let entry = bytes_from(table, RELOCATION_INFO_SIZE as usize * i as usize);
        relocs.push(read_reloc(entry, image, section, part, i)?)?;
    }
    Ok(relocs)
}

/// Puts relocations in the order of their places.
fn sort_by_place(relocs: &mut Vec<Reloc>) -> Result<(), NoMemory>
    ensures { OnOk result (relocs.new.items ≡ by_place relocs.old.items) }
{
    relocs.sort_by_key(|reloc| reloc.place)?;
    Ok(())
}

/// Tests that each relocation stands at least 8 bytes behind the one before it.
fn check_apart(relocs: &[Reloc], part: Part) -> Result<(), Fault>
    ensures { Finds (λ _. tt) result (all_apart part relocs.now) }
{
    for i in 1..relocs.len() {
        let place = u64::from(relocs[i].place);
        if place < relocs[i - 1].end() {
            return Err(Fault {
                kind: Kind::RelocOverlap,
                section: part,
                place,
            });
        }
    }
    Ok(())
}
