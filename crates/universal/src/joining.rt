//! Thin files joined into a universal one, in a room of their own or in place.

ghost use Rattle.std.specs.List.{flat_map};
ghost use Rattle.std.specs.Prelude.{◌≡◌, ◌+◌, ◌-◌, ◌*◌, ◌^◌, ◌<◌, ◌≤◌, List as Listed, [], ◌++◌, All, IfOk, OnErr, OnOk, length, map};
ghost use Rattle.byteorder.specs.Endian.{big_bytes};
ghost use Rattle.ds_base.specs.Room.{put};
ghost use Rattle.universal.specs.declared.parts.Thin.{Thin as Thins};
ghost use Rattle.universal.specs.declared.records.Slice.{Slice as Slices};
ghost use Rattle.universal.specs.Joined;
ghost use Rattle.universal.specs.Joined.{Joins, appended, head, joined, page_zeros, places, record_bytes, unheaded};
ghost use Rattle.universal.specs.Records.{head_size};

use crate::parts::{Appended, JoinError, Thin};
use byteorder::{BigEndian, ByteOrder};
use ds_base::limits::IMAGE_BYTES;
use ds_base::macho::{FAT_ARCH_SIZE, FAT_HEADER_SIZE, FAT_MAGIC};
use ds_base::{Bytes, List, NoMemory, put_bytes};
use std::alloc::Global;

/// The size of a page in bytes: each part begins at a multiple of it.
const PAGE_SIZE: usize = 0x1000;

/// The size of a page as the exponent of a power of two, which records have.
const PAGE_ALIGN: u64 = 12;

/// A universal file with these parts, in their order: header and records, and each part at the next multiple of 0x1000,
/// with zeros between. Where it would have 2^32 bytes or more, that is `File`.
pub fn join(alloc: Global, parts: &[Thin]) -> Result<Bytes, JoinError>
    requires some { 1 ≤ length parts.now }
    requires few { length parts.now ≤ 16 }
    ensures { Joins parts.now result }
{
    let size = joined_size(parts);
    if size >= u128::from(IMAGE_BYTES) {
        return Err(JoinError::File { size });
    }
    let mut file = append_parts(alloc, parts, size as usize)?;
    let sizes = sizes_of(alloc, parts)?;
    write_head(&mut file, sizes.as_slice());
    Ok(file)
}

/// How many bytes the file with these parts has.
fn joined_size(parts: &[Thin]) -> u128
    requires few { length parts.now ≤ 16 }
    ensures { result ≡ length (joined parts.now) }
{
    let mut end = head_end(parts.len()) as u128;
    for part in parts {
        end = page_end(end) + part.bytes.len() as u128;
    }
    end
}

/// The parts behind a page of zeros, in a room for a file of so many bytes.
fn append_parts(alloc: Global, parts: &[Thin], size: usize) -> Result<Bytes, NoMemory>
    ensures { IfOk result (λ file. file ≡ unheaded parts.now) }
{
    let mut file = first_page(alloc, size)?;
    for part in parts {
        fill_page(&mut file)?;
        file.extend(part.bytes.as_slice())?;
    }
    Ok(file)
}

/// What the records of parts say, but their offsets.
fn sizes_of(alloc: Global, parts: &[Thin]) -> Result<List<Appended>, NoMemory>
    requires small { All (λ p. length p.bytes < 2 ^ 32) parts.now }
    ensures { IfOk result (λ sizes. sizes ≡ map appended parts.now) }
{
    let mut sizes = List::with_capacity(alloc, parts.len())?;
    for part in parts {
        sizes.push(Appended {
            cpu: part.cpu,
            sub: part.sub,
            size: part.bytes.len() as u32,
        })?;
    }
    Ok(sizes)
}

/// A page of zeros, which [`write_head`] fills in once all parts stand behind it, with memory for `capacity` bytes.
pub fn first_page(alloc: Global, capacity: usize) -> Result<Bytes, NoMemory>
    ensures { IfOk result (λ file. file ≡ unheaded []) }
{
    let mut room = Vec::with_capacity(alloc, capacity)?;
    room.resize(PAGE_SIZE, 0)?;
    Ok(Bytes::from_vec(room))
}

/// Puts zeros last, up to the next page, where the next part begins. Where there is no memory for them, the bytes stay.
pub fn fill_page(file: &mut Bytes) -> Result<(), NoMemory>
    ensures ok { OnOk result (file.new ≡ file.old ++ page_zeros (length file.old)) }
    ensures unchanged { OnErr result (file.new ≡ file.old) }
{
    let zeros = [0; PAGE_SIZE];
    file.extend(&zeros[..left_of_page(file.len())])?;
    Ok(())
}

/// How many bytes there are up to the next page.
fn left_of_page(at: usize) -> usize
    ensures is { result ≡ Joined.page_end at - at }
    ensures few { result < 0x1000 }
{
    let past = at % PAGE_SIZE;
    if past == 0 {
        return 0;
    }
    PAGE_SIZE - past
}

/// Writes header and records into the first page, for parts that stand behind it, each at its page. Of an offset that
/// doesn't fit four bytes these are the lowest.
pub fn write_head(file: &mut Bytes, parts: &[Appended])
    requires few { length parts.now ≤ 16 }
    requires page { 0x1000 ≤ length file.old }
    ensures put { file.new ≡ put file.old 0 (head (places parts.now)) }
    ensures joined { (thin : Listed Thins) → 1 ≤ length thin → map appended thin ≡ parts.now → file.old ≡ unheaded thin → file.new ≡ joined thin }
{
    put_head(file.as_mut_slice(), parts);
}

/// Writes header and records at the front of a room.
fn put_head(room: &mut [u8], parts: &[Appended])
    requires few { length parts.now ≤ 16 }
    requires fits { 0x1000 ≤ length room.old }
    ensures { room.new ≡ put room.old 0 (head (places parts.now)) }
{
    put_number(room, 0, u64::from(FAT_MAGIC));
    put_number(room, 4, parts.len() as u64);
    put_records(room, parts);
}

/// Writes the records behind the header.
fn put_records(room: &mut [u8], parts: &[Appended])
    requires few { length parts.now ≤ 16 }
    requires fits { 0x1000 ≤ length room.old }
    ensures { room.new ≡ put room.old 8 (flat_map record_bytes (places parts.now)) }
{
    let mut at = FAT_HEADER_SIZE as usize;
    let mut end = head_end(parts.len()) as u128;
    for part in parts {
        let offset = page_end(end);
        put_record(room, at, *part, offset as u64);
        at += FAT_ARCH_SIZE as usize;
        end = part_end(*part, offset);
    }
}

/// Where a part that begins at an offset ends.
fn part_end(part: Appended, offset: u128) -> u128
    requires { offset < 2 ^ 127 }
    ensures is { result ≡ offset + part.size }
    ensures near { result < offset + 2 ^ 32 }
{
    offset + u128::from(part.size)
}

/// Writes the record of a part that begins at an offset.
fn put_record(room: &mut [u8], at: usize, part: Appended, offset: u64)
    requires fits { at + 20 ≤ length room.old }
    ensures { room.new ≡ put room.old at (record_bytes (Joined.slice_from part offset)) }
{
    put_number(room, at, u64::from(part.cpu));
    put_number(room, at + 4, u64::from(part.sub));
    put_number(room, at + 8, offset);
    put_number(room, at + 12, u64::from(part.size));
    put_number(room, at + 16, PAGE_ALIGN);
}

/// Writes the four lowest bytes of a number, the highest of them first.
fn put_number(room: &mut [u8], at: usize, n: u64)
    requires fits { at + 4 ≤ length room.old }
    ensures { room.new ≡ put room.old at (big_bytes 4 n) }
{
    let bytes = n.to_be_bytes();
    put_bytes(room, at, &bytes[4..]);
}

/// Where the header and the records of so many parts end.
fn head_end(count: usize) -> usize
    requires { count ≤ 16 }
    ensures { result ≡ head_size count }
{
    FAT_HEADER_SIZE as usize + FAT_ARCH_SIZE as usize * count
}

/// The next multiple of the size of a page.
fn page_end(n: u128) -> u128
    requires { n < 2 ^ 127 }
    ensures { result ≡ Joined.page_end n }
{
    let page = PAGE_SIZE as u128;
    (n + (page - 1)) / page * page
}
