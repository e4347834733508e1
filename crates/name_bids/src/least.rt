//! Of each cell of a closed table the name that bid its least word, found by several threads.

ghost use Rattle.std.specs.Prelude.{◌≡◌, ◌+◌, ◌<◌, ◌≤◌, ◌^◌, ℕ, length, Some, IfNone, IfOk, IfSome};
ghost use Rattle.name_bids.specs.Noting.{cell_in, cells_in};
ghost use Rattle.name_bids.specs.Reading.{AreInside, AreLeast, AreLeastFrom, IsLeastAt};

use crate::bidding::noted_cell;
use crate::filling::{Filler, fill_parts};
use ds_base::NoMemory;
use odr_names::{PathBook, count, number};
use std::alloc::Global;
use std::thread::Threads;
use type_pool::ClosedPool;

/// Of each cell the name that bid its least word, by at most so many threads.
pub(crate) fn least_names<R: Threads + Sync>(
    rt: &R,
    alloc: Global,
    workers: u32,
    closed: &ClosedPool,
    names: &PathBook,
    cells: &[u32],
) -> Result<Vec<u32>, NoMemory>
    requires workers { (1 ≤ workers) × (workers ≤ 64) }
    requires len { length cells.now ≡ length names.now }
    requires inside { AreInside closed.now.state.cells (cells_in cells.now) }
    ensures { IfOk result (λ winners. AreLeast names.now closed.now.state.least (cells_in cells.now) winners.items) }
{
    let mut winners = vec![in alloc; 0; closed.cell_count()]?;
    let finder = Finder {
        closed,
        names,
        cells,
    };
    fill_parts(rt, workers, &finder, 0, winners.as_mut_slice());
    Ok(winners)
}

/// Who finds of each cell the name that bid its least word.
#[derive(Drop)]
struct Finder<'a, 'b> {
    closed: &'a ClosedPool,
    names: &'a PathBook<'b>,
    cells: &'a [u32],
    ghost len: { length cells.now ≡ length names.now },
    ghost inside: { AreInside closed.now.state.cells (cells_in cells.now) },
}

impl<'a, 'b> Filler for Finder<'a, 'b> {
    ghost size = { λ it. length it.closed.now.state.least };

    ghost fits = { λ it cell w. IsLeastAt it.names.now it.closed.now.state.least (cells_in it.cells.now) (length it.names.now) cell w };

    fn fill(&self, start: usize, part: &mut [u32]) {
        find_least(self.closed, self.names, self.cells, start, part);
    }
}

/// Puts the names of the cells from this one on in their places.
fn find_least(closed: &ClosedPool, names: &PathBook, cells: &[u32], start: usize, part: &mut [u32])
    requires len { length cells.now ≡ length names.now }
    requires inside { AreInside closed.now.state.cells (cells_in cells.now) }
    ensures len { length part.new ≡ length part.old }
    ensures each { AreLeastFrom names.now closed.now.state.least (cells_in cells.now) (length names.now) start part.new }
{
    for x in 0..count(names) {
        put_least(closed, names, cells, x, start, part);
    }
}

/// Puts the name in the place of its cell, where that is one of these and it bid the least word there.
fn put_least(
    closed: &ClosedPool,
    names: &PathBook,
    cells: &[u32],
    x: u32,
    start: usize,
    part: &mut [u32],
)
    requires len { length cells.now ≡ length names.now }
    requires inside { AreInside closed.now.state.cells (cells_in cells.now) }
    requires name { x < length names.now }
    ensures len { length part.new ≡ length part.old }
    ensures each { AreLeastFrom names.now closed.now.state.least (cells_in cells.now) x start part.old → AreLeastFrom names.now closed.now.state.least (cells_in cells.now) (x + 1) start part.new }
{
    let Some(k) = place_in(cells[x as usize], start, part.len()) else {
        return;
    };
    if closed.least_word(start + k) == number(names, x) {
        part[k] = x;
    }
}

/// The place of a noted cell among so many from `start` on, where it is one of these.
fn place_in(word: u32, start: usize, size: usize) -> Option<usize>
    ensures some { IfSome result (λ k. (k < size) × (cell_in word ≡ Some (start + k))) }
    ensures small { IfSome result (λ k. start + k < 2 ^ 32) }
    ensures none { IfNone result ((k : ℕ) → k < size → cell_in word ≡ Some (start + k) → ⊥) }
{
    let cell = noted_cell(word)? as usize;
    if cell < start || cell - start >= size {
        None
    } else {
        Some(cell - start)
    }
}
