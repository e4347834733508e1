//! The rows of a table in their order.

ghost use Rattle.std.specs.Prelude.{◌≡◌, ◌<◌, IfOk, map};
ghost use Rattle.ds_base.specs.InOrder.{in_order};
ghost use Rattle.accel_tables.specs.Table;
ghost use Rattle.accel_tables.specs.Table.{rank, row_of};

use crate::hash::name_hash;
use ds_base::NoMemory;
use std::alloc::Global;
use std::collections::BTreeMap;

/// A name of an entry.
#[derive(Clone, Copy)]
pub struct Entered<'a> {
    pub name: &'a [u8],
    /// The place of the name in `__debug_str`.
    pub text: u32,
    /// The place of the entry in `__debug_info`.
    pub entry: u32,
}

/// What a table says of a name of an entry.
#[derive(Clone, Copy)]
pub struct Row {
    /// Of the name.
    pub hash: u32,
    /// The place of the name in `__debug_str`.
    pub text: u32,
    /// The place of the entry in `__debug_info`.
    pub entry: u32,
}

/// Why there is no table.
#[derive(Clone, Copy, Debug)]
pub enum TableError {
    /// It would have so many bytes, 2^32 - 1 or more, which a section may not have.
    Section { size: u128 },
    NoMemory,
}

impl From<NoMemory> for TableError {
    ghost use Rattle.std.specs.Prelude.{◌≡◌};
    ghost use Rattle.accel_tables.specs.declared.rows.TableError.TheVariants as errors;

    ghost from_gives = { λ _ error. error ≡ errors.NoMemory };

    fn from(_error: NoMemory) -> TableError {
        TableError::NoMemory
    }
}

/// The rows of items.
pub(crate) fn rows_of(alloc: Global, items: &[Entered]) -> Result<Vec<Row>, NoMemory>
    ensures { IfOk result (λ rows. rows.items ≡ map row_of items.now) }
{
    let mut rows = Vec::with_capacity(alloc, items.len())?;
    for item in items {
        rows.push(Row {
            hash: name_hash(item.name),
            text: item.text,
            entry: item.entry,
        })?;
    }
    Ok(rows)
}

/// How many distinct hashes rows have.
pub(crate) fn hash_count(alloc: Global, rows: &[Row]) -> Result<usize, NoMemory>
    ensures { IfOk result (λ count. count ≡ Table.hash_count rows.now) }
{
    let mut hashes = BTreeMap::new(alloc);
    for row in rows.iter().rev() {
        hashes.insert(row.hash, row.hash)?;
    }
    Ok(hashes.len())
}

/// How many buckets there are for so many distinct hashes.
pub(crate) fn bucket_count(hashes: usize) -> usize
    ensures is { result ≡ Table.bucket_count hashes }
    ensures some { 0 < hashes → 0 < result }
{
    if hashes > 1024 {
        return hashes / 4;
    }
    if hashes > 16 {
        return hashes / 2;
    }
    hashes
}

/// The rows by bucket, hash, text and entry, each once, for so many buckets.
pub(crate) fn rows_in_order(
    alloc: Global,
    rows: &[Row],
    buckets: usize,
) -> Result<Vec<Row>, NoMemory>
    requires { 0 < buckets }
    ensures { IfOk result (λ sorted. sorted.items ≡ in_order (rank buckets) rows.now) }
{
    let mut by_rank = BTreeMap::new(alloc);
    // The map keeps the last row of a rank, and so the first comes last.
    for row in rows.iter().rev() {
        by_rank.insert(rank_of(*row, buckets), *row)?;
    }
    Ok(by_rank.into_values().collect(alloc)?)
}

/// The place of a row in the order, as one number.
fn rank_of(row: Row, buckets: usize) -> u128
    requires { 0 < buckets }
    ensures { result ≡ rank buckets row }
{
    let bucket = u64::from(row.hash) % buckets as u64;
    ((u128::from(bucket) * NUMBERS + u128::from(row.hash)) * NUMBERS + u128::from(row.text))
        * NUMBERS
        + u128::from(row.entry)
}

/// How many numbers four bytes have.
const NUMBERS: u128 = 1 << 32;
