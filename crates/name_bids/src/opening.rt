//! A table that is open for the names of a book.

ghost use Rattle.std.specs.Prelude.{◌≡◌, ◌^◌, ◌<◌, ◌≤◌, IfOk, IfSome};
ghost use Rattle.name_bids.specs.Sharing.{IsFresh};
ghost use Rattle.name_bids.specs.Tables.{cell_count};

use ds_base::NoMemory;
use std::alloc::Global;
use std::thread::{Promise, PromisedHandle, Threads, spawn_with};
use type_pool::{Pool, PoolSeat, pool};

/// The least and the greatest number of cells of a table.
const LEAST_CELLS: u64 = 64;

const MOST_CELLS: u64 = 1 << 24;

/// An empty table for a book of some size, with the seat that has every share.
#[derive(Drop)]
pub struct OpenTable {
    pub(crate) pool: Pool,
    pub(crate) seat: PoolSeat,
    ghost fresh: { IsFresh pool seat },
}

/// A table for so many names.
pub fn open_table(alloc: Global, names: u32) -> Result<OpenTable, NoMemory>
    ensures { IfOk result (λ table. table.pool.names ≡ names) }
{
    let (pool, seat) = pool(alloc, cells_for(names), names)?;
    Ok(OpenTable { pool, seat })
}

/// What a thread promises of the table that it makes: it is for so many names.
#[derive(Clone, Copy)]
pub(crate) struct ForNames {
    names: u32,
}

impl Promise<Result<OpenTable, NoMemory>> for ForNames {
    ghost kept_by = { λ promise made. IfOk made (λ table. table.pool.names ≡ promise.names) };
}

/// A thread that makes a table, or none where it is not started.
pub(crate) type Opening = Option<PromisedHandle<Result<OpenTable, NoMemory>, ForNames>>;

/// Starts a thread that makes a table for so many names, where more than one worker is given.
pub(crate) fn start_table<R: Threads>(rt: &R, alloc: Global, workers: u32, names: u32) -> Opening
    ensures { IfSome result (λ thread. thread.promise.names ≡ names) }
{
    if workers < 2 {
        return None;
    }
    spawn_with(rt, ForNames { names }, move || open_table(alloc, names)).ok()
}

/// The table for so many names, by the thread that was started for it, or else by the caller.
pub(crate) fn started_table<R: Threads>(
    rt: &R,
    alloc: Global,
    names: u32,
    opening: Opening,
) -> Result<OpenTable, NoMemory>
    requires { IfSome opening (λ thread. thread.promise.names ≡ names) }
    ensures { IfOk result (λ table. table.pool.names ≡ names) }
{
    match opening {
        Some(thread) => thread.join(rt),
        None => open_table(alloc, names),
    }
}

/// The cells of a table for so many names.
fn cells_for(names: u32) -> u32
    ensures count { result ≡ cell_count names }
    ensures bounds { (64 ≤ result) × (result ≤ 2 ^ 24) }
{
    (2 * u64::from(names)).max(LEAST_CELLS).min(MOST_CELLS) as u32
}
