//! The header and the records of a universal file (mach-o/fat.h).

ghost use Rattle.std.specs.Prelude.{◌≡◌, ◌+◌, ◌*◌, ◌≤◌, length, IfOk, IfSome};
ghost use Rattle.ds_base.specs.Reading.{Finds, Gives};
ghost use Rattle.universal.specs.Records.{AreWithin, count_of, number_of, slice_at, slice_of, slices_by, slices_of};

use byteorder::{BigEndian, ByteOrder};
use ds_base::macho::{FAT_ARCH_SIZE, FAT_HEADER_SIZE, FAT_MAGIC};
use ds_base::{Fault, Kind, List, Part, ReadError};
use std::alloc::Global;

/// How many slices a file may have.
const MOST_SLICES: u32 = 16;

/// A part of a universal file, which is a file for one CPU (mach-o/fat.h, `fat_arch`).
///
/// The CPU type and subtype (mach/machine.h) are the record's; the slice's own header may have others.
#[derive(Clone, Copy)]
pub struct Slice {
    pub cpu: u32,
    pub sub: u32,
    /// Of its first byte in the file.
    pub offset: u32,
    /// In bytes.
    pub size: u32,
}

/// A fault at an offset in the header or the records.
pub(crate) fn header_fault(kind: Kind, place: u64) -> Fault
    ensures { result ≡ Rattle.universal.specs.Records.header_fault kind place }
{
    Fault {
        kind,
        section: Part::Header,
        place,
    }
}

/// The slices of a universal file in the order of their records, or `None` where the bytes don't begin with its magic.
///
/// Slices may be empty, and may share bytes. Where header and records pass the file, that is `Truncated` at 0; a count
/// of none or of more than 16 is `BadUniversal` at 4, and is tried before the records; a slice that passes the file is
/// `BadUniversal` at its record. Places are offsets in the file, in the part `Header`.
pub fn slices(alloc: Global, bytes: &[u8]) -> Result<Option<List<Slice>>, ReadError>
    ensures read { Gives (λ slices. slices) result (slices_of bytes.now) }
    ensures within { IfOk result (λ found. IfSome found (AreWithin bytes.now)) }
{
    read_slices(alloc, bytes)
}

/// The same. That slices lie in the file follows from what is read.
#[tactic(auto, unfolding(crate::specs::Records::slices_of))]
fn read_slices(alloc: Global, bytes: &[u8]) -> Result<Option<List<Slice>>, ReadError>
    ensures { Gives (λ slices. slices) result (slices_of bytes.now) }
{
    if !bytes.starts_with(&FAT_MAGIC.to_be_bytes()) {
        return Ok(None);
    }
    let count = read_count(bytes)?;
    let slices = read_records(alloc, bytes, count)?;
    Ok(Some(slices))
}

/// How many records a universal file has, all of which lie in it.
#[tactic(auto, unfolding(crate::specs::Records::count_of))]
fn read_count(bytes: &[u8]) -> Result<u32, Fault>
    ensures read { Finds (λ count. count) result (count_of bytes.now) }
    ensures few { IfOk result (λ count. count ≤ 16) }
    ensures fits { IfOk result (λ count. 8 + 20 * count ≤ length bytes.now) }
{
    let size = FAT_HEADER_SIZE as usize;
    if bytes.len() < size {
        return Err(header_fault(Kind::Truncated, 0));
    }
    let count = u32_at(bytes, 4);
    if count == 0 || count > MOST_SLICES {
        return Err(header_fault(Kind::BadUniversal, 4));
    }
    if bytes.len() < size + FAT_ARCH_SIZE as usize * count as usize {
        return Err(header_fault(Kind::Truncated, 0));
    }
    Ok(count)
}

/// The slices of so many records.
fn read_records(alloc: Global, bytes: &[u8], count: u32) -> Result<List<Slice>, ReadError>
    requires few { count ≤ 16 }
    requires fits { 8 + 20 * count ≤ length bytes.now }
    ensures { Gives (λ slices. slices) result (slices_by bytes.now count) }
{
    let mut slices = List::with_capacity(alloc, count as usize)?;
    let mut at = FAT_HEADER_SIZE as usize;
    for _ in 0..count {
        let slice = read_slice(bytes, at)?;
        slices.push(slice)?;
        at += FAT_ARCH_SIZE as usize;
    }
    Ok(slices)
}

/// The slice of the record at a place.
#[tactic(auto, unfolding(crate::specs::Records::slice_at))]
fn read_slice(bytes: &[u8], at: usize) -> Result<Slice, Fault>
    requires { at + 20 ≤ length bytes.now }
    ensures { Finds (λ slice. (slice, at + 20)) result (slice_at bytes.now at) }
{
    let slice = record_of(bytes, at);
    if (bytes.len() as u64) < u64::from(slice.offset) + u64::from(slice.size) {
        return Err(header_fault(Kind::BadUniversal, at as u64));
    }
    Ok(slice)
}

/// What the record at a place says. Its alignment is passed over.
#[tactic(auto, unfolding(crate::specs::Records::slice_of))]
fn record_of(bytes: &[u8], at: usize) -> Slice
    requires { at + 20 ≤ length bytes.now }
    ensures { result ≡ slice_of bytes.now at }
{
    Slice {
        cpu: u32_at(bytes, at),
        sub: u32_at(bytes, at + 4),
        offset: u32_at(bytes, at + 8),
        size: u32_at(bytes, at + 12),
    }
}

/// The four bytes at a place as a number, the highest byte first.
#[tactic(auto, unfolding(crate::specs::Records::number_of))]
fn u32_at(bytes: &[u8], at: usize) -> u32
    requires { at + 4 ≤ length bytes.now }
    ensures { result ≡ number_of at bytes.now }
{
    BigEndian::read_u32(&bytes[at..])
}
