//! The bytes of a table.

ghost use Rattle.std.specs.Prelude.{◌≡◌, ◌+◌, ◌<◌, ◌≤◌, ◌^◌, ◌==◌, [], ◌∷◌, ◌++◌, length, map, take, drop, replicate, IfOk, OnOk};
ghost use Rattle.std.specs.List.{flat_map, prefix_len};
ghost use Rattle.byteorder.specs.Endian.{little_bytes};
ghost use Rattle.accel_tables.specs.Table;
ghost use Rattle.accel_tables.specs.Table.{Tables, data_place, groups, header_bytes, item_bytes, list_bytes, parts_with, row_of, table_with, word};
ghost use Rattle.accel_tables.specs.DataLists.{AreLists};

use crate::rows::{Entered, Row, TableError, bucket_count, hash_count, rows_in_order, rows_of};
use ds_base::dwarf::{
    APPLE_HASH_MAGIC, APPLE_HASH_VERSION, DW_ATOM_die_offset, DW_FORM_data4, DW_hash_function_djb,
};
use ds_base::{Bytes, NoMemory};
use std::alloc::Global;

/// From so many bytes on a section isn't written.
const SECTION_LIMIT: u128 = 0xffff_ffff;

/// The table of these items, of which there are some. Equal items stand in it once. Where it would have 2^32 - 1 bytes or more, that is
/// `Section`.
pub fn table_bytes(alloc: Global, items: &[Entered]) -> Result<Bytes, TableError>
    requires { 0 < length items.now }
    ensures { Tables (map row_of items.now) result }
{
    let rows = rows_of(alloc, items)?;
    let buckets = bucket_count(hash_count(alloc, &rows)?);
    let sorted = rows_in_order(alloc, &rows, buckets)?;
    let lists = lists_of(alloc, &sorted)?;
    let size = table_size(buckets, &lists);
    if size >= SECTION_LIMIT {
        return Err(TableError::Section { size });
    }
    Ok(write_table(alloc, buckets, &lists, size as usize)?)
}

/// The data lists of a table, one behind the other.
#[derive(Drop)]
struct Lists {
    /// The hash of each.
    hashes: Vec<u32>,
    /// Where each begins in `bytes`.
    starts: Vec<u64>,
    bytes: Bytes,
}

/// The data lists of rows in order.
fn lists_of(alloc: Global, rows: &[Row]) -> Result<Lists, NoMemory>
    ensures { IfOk result (λ lists. AreLists (groups (λ r. r.hash) rows.now) lists.hashes.items lists.starts.items lists.bytes) }
{
    let mut hashes = Vec::new(alloc);
    let mut starts = Vec::new(alloc);
    let mut bytes = Bytes::new(alloc);
    let mut i = 0;
    while i < rows.len() {
        let list = hash_run(rows, i);
        hashes.push(list[0].hash)?;
        starts.push(bytes.len() as u64)?;
        put_list(&mut bytes, list)?;
        i += list.len();
    }
    Ok(Lists {
        hashes,
        starts,
        bytes,
    })
}

/// The rows from one on up to the first of another hash.
fn hash_run(rows: &[Row], i: usize) -> &[Row]
    requires { i < length rows.now }
    ensures group { groups (λ r. r.hash) (drop i rows.now) ≡ result.now ∷ groups (λ r. r.hash) (drop (i + length result.now) rows.now) }
    ensures some { 0 < length result.now }
    ensures within { i + length result.now ≤ length rows.now }
{
    let rest = rows_from(rows, i);
    rows_to(rest, same_hashes(rest, rest[0].hash))
}

/// The rows from one on up to the first of another text.
fn text_run(rows: &[Row], i: usize) -> &[Row]
    requires { i < length rows.now }
    ensures group { groups (λ r. r.text) (drop i rows.now) ≡ result.now ∷ groups (λ r. r.text) (drop (i + length result.now) rows.now) }
    ensures some { 0 < length result.now }
    ensures within { i + length result.now ≤ length rows.now }
{
    let rest = rows_from(rows, i);
    rows_to(rest, same_texts(rest, rest[0].text))
}

/// The rows from one on.
fn rows_from(rows: &[Row], i: usize) -> &[Row]
    requires { i ≤ length rows.now }
    ensures is { result.now ≡ drop i rows.now }
    ensures len { i + length result.now ≡ length rows.now }
{
    &rows[i..]
}

/// The first rows.
fn rows_to(rows: &[Row], count: usize) -> &[Row]
    requires { count ≤ length rows.now }
    ensures is { result.now ≡ take count rows.now }
    ensures len { length result.now ≡ count }
{
    &rows[..count]
}

/// How many rows come before the first of another hash.
fn same_hashes(rows: &[Row], hash: u32) -> usize
    ensures is { result ≡ prefix_len (λ r. hash == r.hash) rows.now }
    ensures within { result ≤ length rows.now }
{
    for (i, row) in rows.iter().enumerate() {
        if hash != row.hash {
            return i;
        }
    }
    rows.len()
}

/// How many rows come before the first of another text.
fn same_texts(rows: &[Row], text: u32) -> usize
    ensures is { result ≡ prefix_len (λ r. text == r.text) rows.now }
    ensures within { result ≤ length rows.now }
{
    for (i, row) in rows.iter().enumerate() {
        if text != row.text {
            return i;
        }
    }
    rows.len()
}

/// Puts the data list of the rows of a hash last.
fn put_list(bytes: &mut Bytes, rows: &[Row]) -> Result<(), NoMemory>
    ensures { OnOk result (bytes.new ≡ bytes.old ++ list_bytes rows.now) }
{
    put_items(bytes, rows)?;
    put_word(bytes, 0)?;
    Ok(())
}

/// Puts the items of the rows of a hash last.
fn put_items(bytes: &mut Bytes, rows: &[Row]) -> Result<(), NoMemory>
    ensures { OnOk result (bytes.new ≡ bytes.old ++ flat_map item_bytes (groups (λ r. r.text) rows.now)) }
{
    let mut i = 0;
    while i < rows.len() {
        let item = text_run(rows, i);
        put_item(bytes, item)?;
        i += item.len();
    }
    Ok(())
}

/// Puts the item of the rows of a text last.
fn put_item(bytes: &mut Bytes, rows: &[Row]) -> Result<(), NoMemory>
    requires { 0 < length rows.now }
    ensures { OnOk result (bytes.new ≡ bytes.old ++ item_bytes rows.now) }
{
    put_word(bytes, u128::from(rows[0].text))?;
    put_word(bytes, rows.len() as u128)?;
    put_entries(bytes, rows)?;
    Ok(())
}

/// Puts the entries of rows last.
fn put_entries(bytes: &mut Bytes, rows: &[Row]) -> Result<(), NoMemory>
    ensures { OnOk result (bytes.new ≡ bytes.old ++ flat_map (λ r. word r.entry) rows.now) }
{
    for row in rows {
        put_word(bytes, u128::from(row.entry))?;
    }
    Ok(())
}

/// How many bytes a table has.
fn table_size(buckets: usize, lists: &Lists) -> u128
    ensures { result ≡ data_place buckets (length lists.now.hashes.items) + length lists.now.bytes }
{
    data_start(buckets, lists.hashes.len()) + lists.bytes.len() as u128
}

/// Where the data lists begin behind so many buckets and hashes.
fn data_start(buckets: usize, hashes: usize) -> u128
    ensures { result ≡ data_place buckets hashes }
{
    32 + 4 * buckets as u128 + 8 * hashes as u128
}

/// The table of data lists, which has so many bytes.
fn write_table(alloc: Global, buckets: usize, lists: &Lists, size: usize) -> Result<Bytes, NoMemory>
    requires some { 0 < buckets }
    requires few { length lists.now.hashes.items < 2 ^ 32 }
    ensures { IfOk result (λ table. table ≡ table_with buckets lists.now.hashes.items lists.now.starts.items lists.now.bytes) }
{
    let hashes = lists.hashes.as_slice();
    let firsts = firsts_of(alloc, hashes, buckets)?;
    let mut table = empty_room(alloc, size)?;
    put_table(
        &mut table,
        &firsts,
        hashes,
        lists.starts.as_slice(),
        lists.bytes.as_slice(),
    )?;
    Ok(table)
}

/// No bytes, with memory for so many.
fn empty_room(alloc: Global, size: usize) -> Result<Bytes, NoMemory>
    ensures { IfOk result (λ room. room ≡ []) }
{
    Ok(Bytes::from_vec(Vec::with_capacity(alloc, size)?))
}

/// Puts a table last.
fn put_table(
    table: &mut Bytes,
    firsts: &[u32],
    hashes: &[u32],
    starts: &[u64],
    lists: &[u8],
) -> Result<(), NoMemory>
    ensures { OnOk result (table.new ≡ table.old ++ parts_with firsts.now hashes.now starts.now lists.now) }
{
    put_header(table, firsts.len(), hashes.len())?;
    put_words(table, firsts)?;
    put_words(table, hashes)?;
    put_places(table, data_start(firsts.len(), hashes.len()), starts)?;
    table.extend(lists)?;
    Ok(())
}

/// Puts the header last.
fn put_header(table: &mut Bytes, buckets: usize, hashes: usize) -> Result<(), NoMemory>
    ensures { OnOk result (table.new ≡ table.old ++ header_bytes buckets hashes) }
{
    put_u32(table, APPLE_HASH_MAGIC)?;
    put_u16(table, APPLE_HASH_VERSION)?;
    put_u16(table, DW_hash_function_djb)?;
    put_word(table, buckets as u128)?;
    put_word(table, hashes as u128)?;
    put_u32(table, 12)?;
    put_u32(table, 0)?;
    put_u32(table, 1)?;
    put_u16(table, DW_ATOM_die_offset)?;
    put_u16(table, DW_FORM_data4)?;
    Ok(())
}

/// The index of the first hash of each bucket.
fn firsts_of(alloc: Global, hashes: &[u32], buckets: usize) -> Result<Vec<u32>, NoMemory>
    requires some { 0 < buckets }
    requires few { length hashes.now < 2 ^ 32 }
    ensures { IfOk result (λ firsts. firsts.items ≡ Table.firsts buckets hashes.now) }
{
    let mut firsts = none_told(alloc, buckets)?;
    let mut i = hashes.len();
    // The first hash of a bucket comes last.
    while i > 0 {
        i -= 1;
        firsts[hashes[i] as usize % buckets] = i as u32;
    }
    Ok(firsts)
}

/// No index for any bucket.
fn none_told(alloc: Global, buckets: usize) -> Result<Vec<u32>, NoMemory>
    ensures { IfOk result (λ firsts. firsts.items ≡ replicate buckets 0xffffffff) }
{
    Ok(vec![in alloc; u32::MAX; buckets]?)
}

/// Puts numbers of four bytes last.
fn put_words(table: &mut Bytes, words: &[u32]) -> Result<(), NoMemory>
    ensures { OnOk result (table.new ≡ table.old ++ flat_map word words.now) }
{
    for n in words {
        put_word(table, u128::from(*n))?;
    }
    Ok(())
}

/// Puts places last, of which the data lists' starts are counted from a place.
fn put_places(table: &mut Bytes, place: u128, starts: &[u64]) -> Result<(), NoMemory>
    requires { place < 2 ^ 127 }
    ensures { OnOk result (table.new ≡ table.old ++ flat_map (λ start. word (place + start)) starts.now) }
{
    for start in starts {
        put_word(table, place + u128::from(*start))?;
    }
    Ok(())
}

/// Puts the four lowest bytes of a number last, the lowest of them first.
fn put_word(bytes: &mut Bytes, n: u128) -> Result<(), NoMemory>
    ensures { OnOk result (bytes.new ≡ bytes.old ++ word n) }
{
    let spelled = n.to_le_bytes();
    bytes.extend(&spelled[..4])?;
    Ok(())
}

/// Puts a number of four bytes last.
fn put_u32(bytes: &mut Bytes, n: u32) -> Result<(), NoMemory>
    ensures { OnOk result (bytes.new ≡ bytes.old ++ word n) }
{
    bytes.extend(&n.to_le_bytes())?;
    Ok(())
}

/// Puts a number of two bytes last.
fn put_u16(bytes: &mut Bytes, n: u16) -> Result<(), NoMemory>
    ensures { OnOk result (bytes.new ≡ bytes.old ++ little_bytes 2 n) }
{
    bytes.extend(&n.to_le_bytes())?;
    Ok(())
}
