//! The numbers of a table, and its header.

ghost use Rattle.std.specs.Prelude.{◌≡◌, ◌+◌, ◌≤◌, ◌<◌, length, IfOk};
ghost use Rattle.ds_base.specs.Reading.{Finds};
ghost use Rattle.accel_tables.specs.Found.{counts_of, fixed_field, header_of, number_in};

use byteorder::{ByteOrder, LittleEndian};
use ds_base::dwarf::{
    APPLE_HASH_MAGIC, APPLE_HASH_VERSION, DW_ATOM_die_offset, DW_FORM_data4, DW_hash_function_djb,
};
use ds_base::{Fault, Kind, Part, bytes_from};

/// What a table's header says of it.
#[derive(Clone, Copy)]
pub struct Counts {
    /// How many buckets there are; some.
    pub buckets: u32,
    /// How many hashes there are.
    pub hashes: u32,
}

/// A fault at a place in a table. The part is that of names, whichever table it is.
pub(crate) fn table_fault(kind: Kind, place: u64) -> Fault
    ensures { result ≡ Rattle.accel_tables.specs.Found.table_fault kind place }
{
    Fault {
        kind,
        section: Part::AppleNames,
        place,
    }
}

/// The number in the four bytes at a place of a table.
#[tactic(auto, unfolding(crate::specs::Found::number_in))]
pub(crate) fn u32_in(table: &[u8], place: u64) -> Result<u32, Fault>
    ensures read { Finds (λ n. n) result (number_in 4 table.now place) }
    ensures within { IfOk result (λ _. place + 4 ≤ length table.now) }
{
    if (table.len() as u64).saturating_sub(place) < 4 {
        return Err(table_fault(Kind::Truncated, place));
    }
    Ok(LittleEndian::read_u32(bytes_from(table, place as usize)))
}

/// The number in the two bytes at a place of a table.
#[tactic(auto, unfolding(crate::specs::Found::number_in))]
fn u16_in(table: &[u8], place: u64) -> Result<u16, Fault>
    ensures { Finds (λ n. n) result (number_in 2 table.now place) }
{
    if (table.len() as u64).saturating_sub(place) < 2 {
        return Err(table_fault(Kind::Truncated, place));
    }
    Ok(LittleEndian::read_u16(bytes_from(table, place as usize)))
}

/// Tries that the four bytes at a place have one value.
#[tactic(auto, unfolding(crate::specs::Found::fixed_field))]
fn try_u32(table: &[u8], place: u64, value: u32) -> Result<(), Fault>
    ensures { Finds (λ _. tt) result (fixed_field 4 value table.now place) }
{
    let stored = u32_in(table, place)?;
    if stored != value {
        return Err(table_fault(Kind::BadTable, place));
    }
    Ok(())
}

/// Tries that the two bytes at a place have one value.
#[tactic(auto, unfolding(crate::specs::Found::fixed_field))]
fn try_u16(table: &[u8], place: u64, value: u16) -> Result<(), Fault>
    ensures { Finds (λ _. tt) result (fixed_field 2 value table.now place) }
{
    let stored = u16_in(table, place)?;
    if stored != value {
        return Err(table_fault(Kind::BadTable, place));
    }
    Ok(())
}

/// The counts of a table, and the fields before them.
#[tactic(auto, unfolding(crate::specs::Found::counts_of))]
fn read_counts(table: &[u8]) -> Result<Counts, Fault>
    ensures read { Finds (λ counts. counts) result (counts_of table.now) }
    ensures some { IfOk result (λ counts. 0 < counts.buckets) }
{
    try_u32(table, 0, APPLE_HASH_MAGIC)?;
    try_u16(table, 4, APPLE_HASH_VERSION)?;
    try_u16(table, 6, DW_hash_function_djb)?;
    let buckets = u32_in(table, 8)?;
    if buckets == 0 {
        return Err(table_fault(Kind::BadTable, 8));
    }
    let hashes = u32_in(table, 12)?;
    Ok(Counts { buckets, hashes })
}

/// The counts of a table, once all fields of its header are tried: the header tells besides them that twelve bytes follow
/// of the data's description, in which offsets have no base and each item has one atom, an entry's place in four bytes.
#[tactic(auto, unfolding(crate::specs::Found::header_of))]
pub(crate) fn read_header(table: &[u8]) -> Result<Counts, Fault>
    ensures read { Finds (λ counts. counts) result (header_of table.now) }
    ensures some { IfOk result (λ counts. 0 < counts.buckets) }
{
    let counts = read_counts(table)?;
    try_u32(table, 16, 12)?;
    try_u32(table, 20, 0)?;
    try_u32(table, 24, 1)?;
    try_u16(table, 28, DW_ATOM_die_offset)?;
    try_u16(table, 30, DW_FORM_data4)?;
    Ok(counts)
}
