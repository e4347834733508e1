//! The winner of each path, read from the closed table.

ghost use Rattle.std.specs.Prelude.{◌≡◌, ◌+◌, ◌<◌, ◌≤◌, ℕ, length, map, slice_index, slice_index_or, None, IfOk, OnOk};
ghost use Rattle.name_bids.specs.Noting.{cells_in};
ghost use Rattle.name_bids.specs.Opening.{IsOpenFor};
ghost use Rattle.name_bids.specs.Reading.{AreCells, AreCrowdedTo, AreInside, AreLeast, winner_at};
ghost use Rattle.name_bids.specs.Tables.{IsTable};
ghost use Rattle.odr_names.specs.Winners.{AreWinners};

use crate::bidding::noted_cell;
use crate::filling::{Filler, fill_parts};
use crate::least::least_names;
use crate::opening::OpenTable;
use crate::sharing::bid_names;
use ds_base::NoMemory;
use ds_files::Gate;
use odr_names::{PathBook, count, put_winners};
use std::alloc::Global;
use std::thread::Threads;
use type_pool::ClosedPool;

/// Of each name the one that wins its path, by at most `workers` threads, with the closed table in which they were bid for.
///
/// `table` is open for as many names as the book has ([`crate::joined_names`], [`crate::open_table`]).
///
/// Each worker passes the gate once for each object that it claims. A worker for which no thread can be started does its
/// work in the caller's.
pub fn shared_winners<R: Threads + Sync, G: Gate + Sync>(
    rt: &R,
    alloc: Global,
    workers: u32,
    gate: &G,
    names: &PathBook,
    table: OpenTable,
) -> Result<(Vec<u32>, ClosedPool), NoMemory>
    requires workers { (1 ≤ workers) × (workers ≤ 64) }
    requires table { IsOpenFor names.now table }
    ensures winners { IfOk result (λ r. AreWinners names.now r.0.items) }
    ensures table { IfOk result (λ r. IsTable names.now r.1.state) }
    ensures book { IfOk result (λ r. r.1.names ≡ length names.now) }
{
    let (closed, cells) = bid_names(rt, alloc, workers, gate, names, table)?;
    let winners = winners_in(rt, alloc, workers, &closed, names, &cells)?;
    Ok((winners, closed))
}

/// The winners, by the closed table and the cells of all names. Crowded names stand in none of its cells, and are bid for by
/// themselves.
fn winners_in<R: Threads + Sync>(
    rt: &R,
    alloc: Global,
    workers: u32,
    closed: &ClosedPool,
    names: &PathBook,
    cells: &[u32],
) -> Result<Vec<u32>, NoMemory>
    requires workers { (1 ≤ workers) × (workers ≤ 64) }
    requires table { IsTable names.now closed.now.state }
    requires cells { AreCells names.now closed.now.state.cells (cells_in cells.now) }
    ensures { IfOk result (λ winners. AreWinners names.now winners.items) }
{
    let least = least_names(rt, alloc, workers, closed, names, cells)?;
    let mut winners = winners_at_cells(rt, alloc, workers, cells, &least)?;
    let crowded = crowded_names(alloc, names, cells)?;
    put_winners(alloc, names, &crowded, &mut winners)?;
    Ok(winners)
}

/// Of each name that stands at a cell the winner there, by at most so many threads.
fn winners_at_cells<R: Threads + Sync>(
    rt: &R,
    alloc: Global,
    workers: u32,
    cells: &[u32],
    winners: &[u32],
) -> Result<Vec<u32>, NoMemory>
    requires workers { (1 ≤ workers) × (workers ≤ 64) }
    requires cells { AreInside winners.now (cells_in cells.now) }
    ensures { IfOk result (λ all. all.items ≡ map (winner_at winners.now) (cells_in cells.now)) }
{
    let mut all = vec![in alloc; 0; cells.len()]?;
    put_winners_read(rt, workers, cells, winners, all.as_mut_slice());
    Ok(all)
}

/// Puts the winners of all names in their places, each thread those of some names one behind the other.
fn put_winners_read<R: Threads + Sync>(
    rt: &R,
    workers: u32,
    cells: &[u32],
    winners: &[u32],
    all: &mut [u32],
)
    requires workers { (1 ≤ workers) × (workers ≤ 64) }
    requires cells { AreInside winners.now (cells_in cells.now) }
    requires len { length all.old ≡ length cells.now }
    ensures { (i : ℕ) → i < length all.old → slice_index all.new i ≡ winner_at winners.now (slice_index_or (cells_in cells.now) i None) }
{
    let reader = Reader { cells, winners };
    fill_parts(rt, workers, &reader, 0, all);
}

/// Who reads the winner of each name, where it stands at a cell.
#[derive(Drop)]
struct Reader<'a> {
    cells: &'a [u32],
    winners: &'a [u32],
    ghost inside: { AreInside winners.now (cells_in cells.now) },
}

impl<'a> Filler for Reader<'a> {
    ghost size = { λ it. length it.cells.now };

    ghost fits = { λ it x w. w ≡ winner_at it.winners.now (slice_index_or (cells_in it.cells.now) x None) };

    fn fill(&self, start: usize, part: &mut [u32]) {
        read_winners(self.cells, self.winners, start, part);
    }
}

/// Puts the winners of the names from this one on in their places.
fn read_winners(cells: &[u32], winners: &[u32], start: usize, part: &mut [u32])
    requires cells { AreInside winners.now (cells_in cells.now) }
    requires within { start + length part.old ≤ length cells.now }
    ensures { (k : ℕ) → k < length part.old → slice_index part.new k ≡ winner_at winners.now (slice_index_or (cells_in cells.now) (start + k) None) }
{
    for k in 0..part.len() {
        part[k] = winner_of(cells, winners, start + k);
    }
}

/// The winner at the cell of a name, where it stands at one.
fn winner_of(cells: &[u32], winners: &[u32], i: usize) -> u32
    requires { (i < length cells.now) × AreInside winners.now (cells_in cells.now) }
    ensures { result ≡ winner_at winners.now (slice_index_or (cells_in cells.now) i None) }
{
    match noted_cell(cells[i]) {
        Some(cell) => winners[cell as usize],
        None => 0,
    }
}

/// The names that stand at no cell.
fn crowded_names(alloc: Global, names: &PathBook, cells: &[u32]) -> Result<Vec<u32>, NoMemory>
    requires { length cells.now ≡ length names.now }
    ensures { IfOk result (λ crowded. AreCrowdedTo (cells_in cells.now) crowded.items (length names.now)) }
{
    let mut crowded = Vec::new(alloc);
    for x in 0..count(names) {
        push_crowded(cells, x, &mut crowded)?;
    }
    Ok(crowded)
}

/// Puts the name behind these, where it stands at no cell.
fn push_crowded(cells: &[u32], x: u32, crowded: &mut Vec<u32>) -> Result<(), NoMemory>
    requires name { x < length cells.now }
    requires so_far { AreCrowdedTo (cells_in cells.now) crowded.old.items x }
    ensures { OnOk result (AreCrowdedTo (cells_in cells.now) crowded.new.items (x + 1)) }
{
    if cells[x as usize] != 0 {
        return Ok(());
    }
    crowded.push(x)?;
    Ok(())
}
