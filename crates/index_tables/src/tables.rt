//! What stands at an index.

ghost use Rattle.std.specs.Prelude.{◌≡◌, ◌<◌, ◌≤◌, ◌+◌, ◌*◌, ◌^◌, length, is_some, IfOk, IsTrue};
ghost use Rattle.dwarf_types.specs.SectionBytes.{bytes_in};
ghost use Rattle.index_tables.specs.Tables.{LiesIn, LooksUp};
ghost use Rattle.index_tables.specs.Tables;

use byteorder::{ByteOrder, LittleEndian};
use ds_base::dwarf::{ADDRESS_SIZE, DWARF_5, LENGTH_RESERVED};
use ds_base::{Kind, bytes_from};
use dwarf_types::Sections;

/// The place in `__debug_str` that stands at an index of a unit's table of string offsets (DWARF 5,
/// section 7.26).
#[tactic(auto, unfolding(crate::specs::Tables::text_place))]
pub fn text_at(sections: &Sections, base: u64, index: u64) -> Result<u32, Kind>
    ensures { LooksUp result (Tables.text_place (bytes_in sections.now) base index) }
{
    if index >= text_count(sections.str_offs, base) {
        return Err(Kind::BadIndex);
    }
    Ok(stored_u32(sections.str_offs, base + 4 * index))
}

/// The place in `__debug_addr` of the address at an index of a unit's table of addresses (DWARF 5,
/// section 7.27).
#[tactic(auto, unfolding(crate::specs::Tables::address_place))]
pub fn address_at(sections: &Sections, base: u64, index: u64) -> Result<u32, Kind>
    requires small { length sections.now.addr.now < 2 ^ 32 }
    ensures exact { LooksUp result (Tables.address_place (bytes_in sections.now) base index) }

    // The address lies whole in the section.
    ensures inside { IfOk result (λ place. place + ADDRESS_SIZE ≤ length sections.now.addr.now) }
{
    if index >= address_count(sections.addr, base) {
        return Err(Kind::BadIndex);
    }
    Ok((base + 8 * index) as u32)
}

/// The address that stands at a place of `__debug_addr`, as it is stored: its number, before a relocation changes it.
pub fn stored_address(section: &[u8], place: u32) -> u64
    requires { place + ADDRESS_SIZE ≤ length section.now }
    ensures { result ≡ Tables.stored 8 section.now place }
{
    LittleEndian::read_u64(bytes_from(section, place as usize))
}

/// Whether a unit's table of addresses has an address at an index.
#[tactic(auto, unfolding(crate::specs::Tables::address_place))]
pub fn has_address(sections: &Sections, base: u64, index: u64) -> bool
    ensures { result ≡ is_some (Tables.address_place (bytes_in sections.now) base index) }
{
    index < address_count(sections.addr, base)
}

/// The place in `__debug_rnglists` or `__debug_loclists`, whichever `section` is, of the list at an index
/// of a unit's lists there (DWARF 5, sections 7.28 and 7.29). It may pass the section.
#[tactic(auto, unfolding(crate::specs::Tables::list_place))]
pub fn list_at(section: &[u8], base: u64, index: u64) -> Result<u64, Kind>
    ensures { LooksUp result (Tables.list_place section.now base index) }
{
    if index >= list_count(section, base) {
        return Err(Kind::BadIndex);
    }
    let place = base + 4 * index;
    if place + 4 > section.len() as u64 {
        return Err(Kind::BadIndex);
    }
    Ok(base + u64::from(stored_u32(section, place)))
}

/// How many string offsets the table with a base has, 0 where there is none.
#[tactic(auto, unfolding(crate::specs::Tables::text_count))]
fn text_count(section: &[u8], base: u64) -> u64
    ensures is { result ≡ Tables.text_count section.now base }
    ensures inside { 0 < result → base + 4 * result ≤ length section.now }
{
    if !is_table(section, base) {
        return 0;
    }
    (length_of(section, base) - 4) / 4
}

/// How many addresses the table with a base has, 0 where there is none.
#[tactic(auto, unfolding(crate::specs::Tables::address_count))]
fn address_count(section: &[u8], base: u64) -> u64
    ensures is { result ≡ Tables.address_count section.now base }
    ensures inside { 0 < result → base + 8 * result ≤ length section.now }
{
    if !is_address_table(section, base) {
        return 0;
    }
    (length_of(section, base) - 4) / 8
}

/// Whether a base is that of a table of addresses.
#[tactic(auto, unfolding(crate::specs::Tables::is_address_table))]
fn is_address_table(section: &[u8], base: u64) -> bool
    ensures is { result ≡ Tables.is_address_table section.now base }
    ensures inside { IsTrue result → LiesIn section.now base }
{
    is_table(section, base)
        && section[base as usize - 2] == ADDRESS_SIZE
        && section[base as usize - 1] == 0
}

/// Whether a base is that of a table.
#[tactic(auto, unfolding(crate::specs::Tables::is_table))]
fn is_table(section: &[u8], base: u64) -> bool
    ensures is { result ≡ Tables.is_table section.now base }
    ensures inside { IsTrue result → LiesIn section.now base }
{
    if base < 8 || base > section.len() as u64 {
        return false;
    }
    is_described(section, base)
}

/// Whether the header before a base is that of a table.
fn is_described(section: &[u8], base: u64) -> bool
    requires { (8 ≤ base) × (base ≤ length section.now) }
    ensures is { result ≡ Tables.is_described section.now base }
    ensures inside { IsTrue result → LiesIn section.now base }
{
    let length = length_of(section, base);
    let end = section.len() as u64;
    length >= 4
        && length < u64::from(LENGTH_RESERVED)
        && base - 4 + length <= end
        && stored_u16(section, base - 4) == DWARF_5
}

/// The length in the header before a base.
fn length_of(section: &[u8], base: u64) -> u64
    requires { (8 ≤ base) × (base ≤ length section.now) }
    ensures is { result ≡ Tables.length_of section.now base }
    ensures small { result < 2 ^ 32 }
{
    u64::from(stored_u32(section, base - 8))
}

/// How many lists have an offset behind a base.
#[tactic(auto, unfolding(crate::specs::Tables::list_count))]
fn list_count(section: &[u8], base: u64) -> u64
    ensures is { result ≡ Tables.list_count section.now base }
    ensures small { result < 2 ^ 32 }
    ensures inside { 0 < result → base ≤ length section.now }
{
    if base < 12 || base > section.len() as u64 {
        return 0;
    }
    u64::from(stored_u32(section, base - 4))
}

/// The number in four bytes from a place on.
fn stored_u32(section: &[u8], place: u64) -> u32
    requires { place + 4 ≤ length section.now }
    ensures { result ≡ Tables.stored 4 section.now place }
{
    LittleEndian::read_u32(bytes_from(section, place as usize))
}

/// The number in two bytes from a place on.
fn stored_u16(section: &[u8], place: u64) -> u16
    requires { place + 2 ≤ length section.now }
    ensures { result ≡ Tables.stored 2 section.now place }
{
    LittleEndian::read_u16(bytes_from(section, place as usize))
}
