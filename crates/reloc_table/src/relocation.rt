//! Relocations: one entry of a section's table.

ghost use Rattle.std.specs.Prelude.{◌≡◌, ◌+◌, ◌≤◌, length};
ghost use Rattle.ds_base.specs.Reading.{Finds};
ghost use Rattle.reloc_table.specs.Relocation.{info_of, reloc_of, reloc_fault};

use byteorder::{ByteOrder, LittleEndian};
use ds_base::dwarf::ADDRESS_SIZE;
use ds_base::macho::{R_SCATTERED, RELOC_LENGTH_8, X86_64_RELOC_UNSIGNED};
use ds_base::{Fault, Kind, List, Part};
use macho_read::{Image, Section};

/// A number of 8 bytes in a section to which the linker adds (mach-o/reloc.h).
#[derive(Clone, Copy)]
pub struct Reloc {
    /// Where the number stands, in bytes from the section's start.
    pub place: u32,
    /// Where it is outer, the index of the symbol that is added, from 0. Otherwise the ordinal of a section.
    pub symbol: u32,
    /// Whether a symbol is added, and not the place where a section went.
    pub outer: bool,
}

/// The relocations of a section, by rising places.
#[derive(Drop)]
pub struct Relocs {
    pub list: List<Reloc>,
}

impl Reloc {
    /// The place behind the number.
    pub(crate) fn end(&self) -> u64
        ensures { result ≡ self.now.place + 8 }
    {
        u64::from(self.place) + u64::from(ADDRESS_SIZE)
    }
}

/// The fields of an entry (mach-o/reloc.h, `relocation_info`).
#[derive(Clone, Copy)]
struct RelocationInfo {
    address: u32,
    symbolnum: u32,
    pcrel: bool,
    /// The number's size in bytes is 2 to the power of this.
    length: u8,
    outer: bool,
    kind: u8,
}

/// The relocation whose entry the bytes begin with. `index` is the entry's in the table of the section, from 0.
#[tactic(auto, unfolding(crate::specs::Relocation::reloc_of))]
pub(crate) fn read_reloc(
    entry: &[u8],
    image: &Image,
    section: &Section,
    part: Part,
    index: u32,
) -> Result<Reloc, Fault>
    requires { 8 ≤ length entry.now }
    ensures { Finds (λ reloc. reloc) result (reloc_of image.now section.now part index entry.now) }
{
    let info = read_info(entry);
    if !is_plain(info) {
        return Err(reloc_fault(part, Kind::RelocKind, index));
    }
    if section.size < u64::from(info.address) + u64::from(ADDRESS_SIZE) {
        return Err(reloc_fault(part, Kind::RelocPlace, index));
    }
    if info.outer && image.symbols.len() <= info.symbolnum as usize {
        return Err(reloc_fault(part, Kind::RelocSymbol, index));
    }
    Ok(Reloc {
        place: info.address,
        symbol: info.symbolnum,
        outer: info.outer,
    })
}

/// The fields of the entry that the bytes begin with.
#[tactic(auto, unfolding(crate::specs::Relocation::info_of, macho_read::specs::Fields::number_of))]
fn read_info(entry: &[u8]) -> RelocationInfo
    requires { 8 ≤ length entry.now }
    ensures { result ≡ info_of entry.now }
{
    let word = LittleEndian::read_u32(&entry[4..]);
    RelocationInfo {
        address: LittleEndian::read_u32(entry),
        symbolnum: word % (1 << 24),
        pcrel: (word >> 24) % 2 == 1,
        length: ((word >> 25) % 4) as u8,
        outer: (word >> 27) % 2 == 1,
        kind: (word >> 28) as u8,
    }
}

/// Whether an entry is a plain relocation of 8 bytes. That type has one number on both CPUs.
fn is_plain(info: RelocationInfo) -> bool
    ensures { result ≡ Rattle.reloc_table.specs.Relocation.is_plain info }
{
    info.address < R_SCATTERED
        && info.kind == X86_64_RELOC_UNSIGNED
        && info.length == RELOC_LENGTH_8
        && !info.pcrel
}

/// The fault of the relocation of this index.
fn reloc_fault(part: Part, kind: Kind, index: u32) -> Fault
    ensures { result ≡ reloc_fault part kind index }
{
    Fault {
        kind,
        section: part,
        place: u64::from(index),
    }
}
