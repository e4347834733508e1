//! What stands under a name in the bytes of a table.

ghost use Rattle.std.specs.Prelude.{◌≡◌, ◌<◌, ◌≤◌, ◌+◌, ◌-◌, ◌%◌, ◌^◌, [], length, IfOk, OnOk};
ghost use Rattle.std.specs.Str.{bytes_eq};
ghost use Rattle.ds_base.specs.Reading.{Gives};
ghost use Rattle.accel_tables.specs.Found;
ghost use Rattle.accel_tables.specs.Found.{Collects, Walks, entries_from, found, hashes_from, item_from, list_from, lists_from, with_entry};

use crate::hash::name_hash;
use crate::header::{Counts, read_header, table_fault, u32_in};
use ds_base::{Kind, List, NoMemory, ReadError, text_in};
use std::alloc::Global;

/// How many bytes a header has.
const HEADER_SIZE: u64 = 32;

/// The entries that stand under a name in the bytes of one of the three tables, in their order, by their places in
/// `__debug_info`. `strings` are the bytes of `__debug_str`.
///
/// Where an item of the table passes its end, that is `Truncated`; a field of the header that isn't as in all tables, no
/// buckets, and a text that doesn't begin and end in `strings` are `BadTable`. Both are placed at the item, in the part
/// `AppleNames`, whichever table it is. What isn't read for this name isn't tried.
#[tactic(auto, unfolding(crate::specs::Found::found))]
pub fn look_up(
    alloc: Global,
    table: &[u8],
    strings: &[u8],
    name: &[u8],
) -> Result<List<u32>, ReadError>
    ensures { Gives (λ entries. entries) result (found table.now strings.now name.now) }
{
    let counts = read_header(table)?;
    let bucket = name_hash(name) % counts.buckets;
    let first = u32_in(table, bucket_place(bucket))?;
    let hashes = read_hashes(alloc, table, counts, bucket, first)?;
    let search = Search {
        table,
        strings,
        name,
    };
    let mut entries = List::new(alloc);
    read_lists(&search, counts, hashes.as_slice(), first, &mut entries)?;
    Ok(entries)
}

/// A name that is looked up, the table, and the texts of which it speaks.
#[derive(Clone, Copy)]
struct Search<'a> {
    table: &'a [u8],
    strings: &'a [u8],
    name: &'a [u8],
}

/// Where the index of the first hash of a bucket stands.
fn bucket_place(bucket: u32) -> u64
    ensures { result ≡ Found.bucket_place bucket }
{
    HEADER_SIZE + 4 * u64::from(bucket)
}

/// Where the hash of an index stands.
fn hash_place(counts: Counts, i: u32) -> u64
    ensures { result ≡ Found.hash_place counts i }
{
    HEADER_SIZE + 4 * u64::from(counts.buckets) + 4 * u64::from(i)
}

/// Where the place of the data list of a hash stands, by the index of the hash.
fn offset_place(counts: Counts, i: u64) -> u64
    requires { i < 2 ^ 33 }
    ensures { result ≡ Found.offset_place counts i }
{
    HEADER_SIZE + 4 * u64::from(counts.buckets) + 4 * u64::from(counts.hashes) + 4 * i
}

/// The hashes of a bucket, the first of which has this index.
fn read_hashes(
    alloc: Global,
    table: &[u8],
    counts: Counts,
    bucket: u32,
    first: u32,
) -> Result<List<u32>, ReadError>
    requires some { 0 < counts.buckets }
    ensures read { Gives (λ hashes. hashes) result (hashes_from table.now counts bucket (counts.hashes - first) [] first) }
    ensures few { IfOk result (λ hashes. length hashes ≤ counts.hashes - first) }
{
    let mut hashes = List::new(alloc);
    for i in first..counts.hashes {
        let hash = u32_in(table, hash_place(counts, i))?;
        if hash % counts.buckets != bucket {
            return Ok(hashes);
        }
        hashes.push(hash)?;
    }
    Ok(hashes)
}

/// Puts the entries of those hashes that are the name's behind others; the first hash has this index.
fn read_lists(
    search: &Search,
    counts: Counts,
    hashes: &[u32],
    first: u32,
    entries: &mut List<u32>,
) -> Result<(), ReadError>
    requires few { length hashes.now < 2 ^ 32 }
    ensures { Collects result entries.new (lists_from search.now.table.now search.now.strings.now search.now.name.now counts hashes.now entries.old first) }
{
    let wanted = name_hash(search.name);
    let mut i = u64::from(first);
    for hash in hashes {
        let at = i;
        i += 1;
        if *hash != wanted {
            continue;
        }
        let place = u32_in(search.table, offset_place(counts, at))?;
        read_list(search, u64::from(place), entries)?;
    }
    Ok(())
}

/// Puts the entries of the data list at a place behind others.
fn read_list(search: &Search, place: u64, entries: &mut List<u32>) -> Result<(), ReadError>
    ensures { Collects result entries.new (list_from search.now.table.now search.now.strings.now search.now.name.now (length search.now.table.now) entries.old place) }
{
    let mut at = place;
    for _ in 0..search.table.len() {
        let text = u32_in(search.table, at)?;
        if text == 0 {
            return Ok(());
        }
        at = read_item(search, text, at, entries)?;
    }
    Ok(())
}

/// Puts the entries of the item at a place, which begins with this text's place, behind others, if its text is the name,
/// and answers the place behind the item.
#[tactic(auto, unfolding(crate::specs::Found::item_from))]
fn read_item(
    search: &Search,
    text: u32,
    place: u64,
    entries: &mut List<u32>,
) -> Result<u64, ReadError>
    requires { place + 4 ≤ length search.now.table.now }
    ensures { Walks result entries.new (item_from search.now.table.now search.now.strings.now search.now.name.now text entries.old place) }
{
    let Some(spelled) = text_in(search.strings, text) else {
        return Err(ReadError::Faulty(table_fault(Kind::BadTable, place)));
    };
    let count = u32_in(search.table, place + 4)?;
    read_entries(
        search.table,
        spelled == search.name,
        count,
        place + 8,
        entries,
    )
}

/// Puts so many entries behind others, if they are wanted, and answers the place behind them.
fn read_entries(
    table: &[u8],
    wanted: bool,
    count: u32,
    place: u64,
    entries: &mut List<u32>,
) -> Result<u64, ReadError>
    ensures { Walks result entries.new (entries_from table.now wanted count entries.old place) }
{
    let mut at = place;
    for _ in 0..count {
        let entry = u32_in(table, at)?;
        put_entry(entries, wanted, entry)?;
        at += 4;
    }
    Ok(at)
}

/// Puts an entry behind others, if it is wanted.
fn put_entry(entries: &mut List<u32>, wanted: bool, entry: u32) -> Result<(), NoMemory>
    ensures { OnOk result (entries.new ≡ with_entry wanted entries.old entry) }
{
    if wanted {
        entries.push(entry)?;
    }
    Ok(())
}
