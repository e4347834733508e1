//! A new table.

ghost use Rattle.std.specs.Prelude.{◌≡◌, ◌+◌, ◌*◌, ◌^◌, ◌≤◌, ℕ, IfOk, OnOk};
ghost use Rattle.type_pool.specs.Keeping.{AreEmpty};
ghost use Rattle.type_pool.specs.Views.{first_view};
ghost use Rattle.type_pool.specs.Seats.{Belongs, known};

use crate::rule::Size;
use crate::seat::{ALL_SHARES, PoolSeat};
use crate::table::Pool;
use atomic_table::Table;
use ds_base::NoMemory;
use std::alloc::Global;

/// A table of empty cells, with its first seat, which has every share.
///
/// `cells` is 64 to 2^24, and `names` the size of the books that the table's calls take.
pub fn pool(alloc: Global, cells: u32, names: u32) -> Result<(Pool, PoolSeat), NoMemory>
    requires { (64 ≤ cells) × (cells ≤ 2 ^ 24) }
    ensures sizes { IfOk result (λ made. (made.0.cells ≡ cells) × (made.0.names ≡ names)) }
    ensures seat { IfOk result (λ made. Belongs made.0 made.1 × (known made.1 ≡ first_view cells names)) }
{
    let words = empty_words(alloc, cells)?;
    let (table, seat) = Table::of_words(alloc, words.as_slice(), &Size { cells, names })?;
    let pool = Pool {
        table,
        words,
        cells,
        names,
    };
    let seat = PoolSeat {
        seat,
        share: ALL_SHARES,
    };
    Ok((pool, seat))
}

// How many cells are written at a time.
const BLOCK: u32 = 1 << 10;

// The words of a new table: for each cell that of no name, and that of no bid. All blocks are copies of the first.
fn empty_words(alloc: Global, cells: u32) -> Result<Vec<u64>, NoMemory>
    requires { cells ≤ 2 ^ 24 }
    ensures { IfOk result (λ words. AreEmpty cells words.items) }
{
    let mut block = Vec::with_capacity(alloc, 2 * BLOCK as usize)?;
    put_cells(&mut block, BLOCK)?;
    let mut words = Vec::with_capacity(alloc, 2 * cells as usize)?;
    for _ in 0..cells / BLOCK {
        words.extend_from_slice(&block)?;
    }
    put_cells(&mut words, cells % BLOCK)?;
    Ok(words)
}

// Puts the words of so many cells behind these.
fn put_cells(words: &mut Vec<u64>, count: u32) -> Result<(), NoMemory>
    ensures { (cells : ℕ) → AreEmpty cells words.old.items → OnOk result (AreEmpty (cells + count) words.new.items) }
{
    for _ in 0..count {
        words.push(0)?;
        words.push(u64::MAX)?;
    }
    Ok(())
}
