//! A table that no thread shares any more: how it is closed, and what is found in it.

ghost use Rattle.std.specs.Prelude.{◌≡◌, ◌*◌, ◌^◌, ◌<◌, ◌≤◌, length, slice_index, IfErr, IfOk, IsOk};
ghost use Rattle.std.specs.Mem.Slots.{IsFull, slots_items, slots_len};
ghost use Rattle.type_pool.specs.ClosedWords.{AreOfTable, state_of};
ghost use Rattle.type_pool.specs.Ends.{Closes, Finds};
ghost use Rattle.type_pool.specs.Standing.{EqualNamesShareACell};

use crate::probing::{PROBES, probed};
use crate::seat::PoolSeat;
use crate::table::Pool;
use atomic_table::Closed;
use pool_core::NameBook;
use std::alloc::Global;
use std::marker::Model;

/// A closed table. Contracts see its words as those of the plain machine, and the size of its books.
///
/// The two words of a cell stand side by side, so that whoever probes it looks at one place in memory.
#[derive(Drop)]
pub struct ClosedPool {
    words: Vec<u64>,
    cells: u32,
    names: u32,
}

impl Model for ClosedPool {
    ghost use Rattle.type_pool.specs.ClosedWords.{AreOfTable, ClosedTable, state_of};

    ghost Value = { ClosedTable };

    ghost view = { λ c. record { state = state_of c.words.items; cells = c.cells; names = c.names } };

    ghost invariant = { λ c. AreOfTable c.cells c.names c.words.items };
}

/// Where a name stands in a closed table, and the least number that was bid there, or 2^64 - 1.
#[derive(Clone, Copy, Debug, PartialEq, Eq)]
pub struct Found {
    pub cell: u32,
    pub least: u64,
}

impl ClosedPool {
    /// How many cells there are.
    pub fn cell_count(&self) -> usize
        ensures cells { result ≡ length self.now.state.cells }
        ensures least { result ≡ length self.now.state.least }
    {
        self.cells as usize
    }

    /// The word of the name in a cell: 0 where it is empty, and `x + 1` for the name x.
    pub fn name_word(&self, cell: usize) -> u64
        requires { cell < length self.now.state.cells }
        ensures { result ≡ slice_index self.now.state.cells cell }
    {
        self.words.as_slice()[2 * cell]
    }

    /// The least number that was bid at a cell, or 2^64 - 1.
    pub fn least_word(&self, cell: usize) -> u64
        requires { cell < length self.now.state.cells }
        ensures { result ≡ slice_index self.now.state.least cell }
    {
        self.words.as_slice()[2 * cell + 1]
    }
}

impl Pool {
    ghost use Rattle.type_pool.specs.Seats.{Belongs, known};

    /// Closes the table, by the seat that has every share. It asks for no memory: the words go into those that the pool
    /// was made of.
    pub fn close(self, seat: PoolSeat) -> Result<ClosedPool, (Pool, PoolSeat)>
        requires belongs { Belongs self seat }
        requires whole { (known seat).share ≡ 64 }
        ensures closed { IfOk result (λ closed. Closes self.cells (known seat) closed.state × (closed.names ≡ self.names)) }
        ensures unchanged { IfErr result (λ back. back ≡ (self, seat)) }
        ensures always { IsOk result }
    {
        let Pool {
            table,
            words,
            cells,
            names,
        } = self;
        let PoolSeat { seat, share: _ } = seat;
        let closed = table.close_with(seat);
        let words = copied(&closed, words);
        closed.free();
        Ok(ClosedPool {
            words,
            cells,
            names,
        })
    }
}

/// The cell at which the name `x` stands, with its least word. `None` exactly where it stands at none of its 64 cells.
pub fn find<N: NameBook>(closed: &ClosedPool, names: &N, x: u32) -> Option<Found>
    requires book { (N.size names.now ≡ closed.now.names) × (x < N.size names.now) }
    ensures { Finds (N.same names.now) (N.start_of names.now) closed.now.state x result }
{
    find_among(closed.words.as_slice(), closed.cells, names, x)
}

// The same among these words.
fn find_among<N: NameBook>(words: &[u64], cells: u32, names: &N, x: u32) -> Option<Found>
    requires words { AreOfTable cells (N.size names.now) words.now }
    requires name { x < N.size names.now }
    ensures { Finds (N.same names.now) (N.start_of names.now) (state_of words.now) x result }
{
    let start = names.start(x, cells);
    for turn in 0..PROBES {
        let cell = probed(start, cells, turn);
        let at = 2 * cell as usize;
        let word = words[at];
        if word == 0 {
            return None;
        }
        if names.equal((word - 1) as u32, x) {
            return Some(Found {
                cell,
                least: words[at + 1],
            });
        }
    }
    None
}

/// In a closed table two equal names never have two cells, and a name that stands at a cell is crowded for nobody.
pub fn equal_names_share_a_cell<N: NameBook>(names: &N)
    ensures { EqualNamesShareACell (N.size names.now) (N.same names.now) (N.start_of names.now) }
{}

// The words of the closed table, written over these.
fn copied(closed: &Closed<(), Global>, mut to: Vec<u64>) -> Vec<u64>
    requires { (slots_len closed.now.words ≡ length to.items) × IsFull closed.now.words }
    ensures { result.items ≡ slots_items closed.now.words }
{
    for i in 0..to.len() {
        to[i] = closed.word(i);
    }
    to
}
