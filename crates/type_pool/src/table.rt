//! The table that threads share.

ghost use Rattle.std.specs.Prelude.{◌≡◌, ℕ, ◌-◌, ◌*◌, ◌^◌, ◌<◌, ◌≤◌, ◌==◌, if◌then◌else◌, length, IfSome, IfNone};

use crate::placing::Placing;
use crate::probing::{PROBES, probed};
use crate::rule::{Halves, Interning, Looks, Size, Tries, Underbids, Weighs};
use crate::seat::PoolSeat;
use crate::view::View;
use atomic_table::Table;
use pool_core::NameBook;
use std::alloc::Global;

/// A table of cells that threads share by reference, for books of one size.
#[derive(Drop)]
pub struct Pool {
    pub(crate) table: Table<(), View, Size, Interning, Global>,
    // As many words as the table has: what it was made of, and the place of its words when it is closed.
    pub(crate) words: Vec<u64>,
    pub(crate) cells: u32,
    pub(crate) names: u32,
    ghost sized: { (table.shared.key.cells ≡ cells) × (table.shared.key.names ≡ names) × (table.shared.table_id.words ≡ 2 * cells) × (table.shared.table_id.slots ≡ 0) },
    ghost wide: { length words.items ≡ 2 * cells },
    ghost ample: { (64 ≤ cells) × (cells ≤ 2 ^ 24) },
}

impl Pool {
    ghost use Rattle.type_pool.specs.Pairs.{Has, HasOneEach};
    ghost use Rattle.type_pool.specs.Views.{bidden, noted, put, united};
    ghost use Rattle.type_pool.specs.Standing.{IsCrowded, probe};
    ghost use Rattle.type_pool.specs.Seats.{AreHalves, Belongs, known, Learns, Placed, PutsAtMost};
    ghost use Rattle.type_pool.specs.declared.placing.Placing.TheVariants.{Cell, Crowded};

    /// Finds the cell of the name `x`, or puts `x` into the first empty cell of those probed for it.
    ///
    /// The 64 cells from the name's start on are probed, round the table's end. Where the name stands at its first cell
    /// already, that is one load and one comparison.
    pub fn place<N: NameBook>(&self, seat: &mut PoolSeat, names: &N, x: u32) -> Placing
        requires belongs { Belongs self.now seat.old }
        requires book { (N.size names.now ≡ self.now.names) × (x < N.size names.now) }
        ensures belongs { Belongs self.now seat.new }
        ensures learns { Learns (known seat.old) (known seat.new) }
        ensures placed { Placed (N.same names.now) (known seat.new).notes (N.start_of names.now x self.now.cells) self.now.cells x result }
        ensures crowded { IsCrowded (N.same names.now) (Has (known seat.new).notes) (N.start_of names.now x self.now.cells) self.now.cells x → result ≡ Crowded }
        ensures puts { PutsAtMost x result (known seat.old).puts (known seat.new).puts }
    {
        let start = names.start(x, self.cells);
        for turn in 0..PROBES {
            let cell = probed(start, self.cells, turn);
            let Some(name) = self.occupy(seat, cell, x) else {
                return Placing::Cell(cell);
            };
            if names.equal(name, x) {
                return Placing::Cell(cell);
            }
        }
        Placing::Crowded
    }

    /// Bids the number at a cell that the seat has noted: the cell's least word becomes the minimum of itself and the number.
    pub fn bid(&self, seat: &mut PoolSeat, cell: u32, number: u64)
        requires belongs { Belongs self.now seat.old }
        requires noted { (name : ℕ) × Has (known seat.old).notes cell name }
        ensures belongs { Belongs self.now seat.new }
        ensures bids { known seat.new ≡ bidden (known seat.old) cell number }
    {
        self.table
            .shared
            .fetch_min::<Underbids>(&mut seat.seat, 2 * cell as usize + 1, number);
    }

    /// The name in the first cell that is probed for `x`, if one stands there. Nothing is put.
    ///
    /// It is what [`Pool::place`] would look at first. Where these calls for several names stand one behind the other, so do
    /// memory's waits for their cells, which else come one after the other.
    pub fn look_ahead<N: NameBook>(&self, seat: &mut PoolSeat, names: &N, x: u32) -> Option<u32>
        requires belongs { Belongs self.now seat.old }
        requires book { (N.size names.now ≡ self.now.names) × (x < N.size names.now) }
        ensures belongs { Belongs self.now seat.new }
        ensures learns { Learns (known seat.old) (known seat.new) }
        ensures puts { (known seat.new).puts ≡ (known seat.old).puts }
        ensures found { IfSome result (λ name. (name < self.now.names) × Has (known seat.new).notes (probe (N.start_of names.now x self.now.cells) self.now.cells 0) name) }
    {
        let cell = probed(names.start(x, self.cells), self.cells, 0);
        let standing = self.look(seat, cell);
        if standing == 0 {
            None
        } else {
            Some((standing - 1) as u32)
        }
    }

    /// Bids the number for the name `x` at the first cell that is probed for it, where a name equal to it was seen there, and
    /// answers that cell.
    pub fn settle<N: NameBook>(&self, seat: &mut PoolSeat, names: &N, x: u32, number: u64) -> u32
        requires belongs { Belongs self.now seat.old }
        requires book { (N.size names.now ≡ self.now.names) × (x < N.size names.now) }
        requires seen { (name : ℕ) × Has (known seat.old).notes (probe (N.start_of names.now x self.now.cells) self.now.cells 0) name × N.same names.now name x }
        ensures belongs { Belongs self.now seat.new }
        ensures bids { known seat.new ≡ bidden (known seat.old) result number }
        ensures placed { Placed (N.same names.now) (known seat.old).notes (N.start_of names.now x self.now.cells) self.now.cells x (Cell result) }
        ensures inside { result < self.now.cells }
    {
        let cell = probed(names.start(x, self.cells), self.cells, 0);
        self.bid(seat, cell, number);
        cell
    }

    /// Splits a seat off: it gets half of the share, rounded down, and all notes. `None` exactly where the share is 1.
    pub fn split(&self, seat: &mut PoolSeat) -> Option<PoolSeat>
        requires belongs { Belongs self.now seat.old }
        ensures belongs { Belongs self.now seat.new }
        ensures given { IfSome result (λ other. Belongs self.now other) }
        ensures halves { AreHalves (known seat.old) (known seat.new) result }
    {
        let given = seat.share / 2;
        if given == 0 {
            return None;
        }
        let other = self.table.shared.split_seat::<Halves>(&mut seat.seat);
        seat.share -= given;
        Some(PoolSeat {
            seat: other,
            share: given,
        })
    }

    /// Joins another seat of this pool to the seat: shares, notes, puts and bids.
    pub fn join(&self, seat: &mut PoolSeat, other: PoolSeat)
        requires belongs { Belongs self.now seat.old × Belongs self.now other }
        ensures belongs { Belongs self.now seat.new }
        ensures united { known seat.new ≡ united (known seat.old) (known other) }
    {
        let PoolSeat {
            seat: theirs,
            share,
        } = other;
        self.table
            .shared
            .join_seat::<Halves>(&mut seat.seat, theirs);
        self.table.shared.load::<Weighs>(&mut seat.seat, 0);
        seat.share += share;
    }

    // Brings the name to a cell, and answers the name that stood there already. It is put there where the cell is empty.
    fn occupy(&self, seat: &mut PoolSeat, cell: u32, x: u32) -> Option<u32>
        requires belongs { Belongs self.now seat.old }
        requires inside { (cell < self.now.cells) × (x < self.now.names) }
        ensures belongs { Belongs self.now seat.new }
        ensures put { IfNone result (known seat.new ≡ put (known seat.old) cell x) }
        ensures found { IfSome result (λ name. (name < self.now.names) × (known seat.new ≡ noted (known seat.old) cell name)) }
        ensures one_each { HasOneEach (known seat.new).notes }
    {
        let standing = self.look(seat, cell);
        if standing != 0 {
            return Some((standing - 1) as u32);
        }
        let found = self.bring(seat, cell, x);
        if found == 0 {
            None
        } else {
            Some((found - 1) as u32)
        }
    }

    // The word of the name in a cell, which the seat notes where there is one.
    fn look(&self, seat: &mut PoolSeat, cell: u32) -> u64
        requires belongs { Belongs self.now seat.old }
        requires inside { cell < self.now.cells }
        ensures belongs { Belongs self.now seat.new }
        ensures noted { known seat.new ≡ (if result == 0 then known seat.old else noted (known seat.old) cell (result - 1)) }
        ensures one_each { HasOneEach (known seat.new).notes }
        ensures named { (result ≤ self.now.names) × (result ≤ 2 ^ 32) }
    {
        self.table
            .shared
            .load::<Looks>(&mut seat.seat, 2 * cell as usize)
    }

    // The word that was there, as the name was brought to a cell.
    fn bring(&self, seat: &mut PoolSeat, cell: u32, x: u32) -> u64
        requires belongs { Belongs self.now seat.old }
        requires inside { (cell < self.now.cells) × (x < self.now.names) }
        ensures belongs { Belongs self.now seat.new }
        ensures put { known seat.new ≡ (if result == 0 then put (known seat.old) cell x else noted (known seat.old) cell (result - 1)) }
        ensures one_each { HasOneEach (known seat.new).notes }
        ensures named { (result ≤ self.now.names) × (result ≤ 2 ^ 32) }
    {
        self.table
            .shared
            .compare_exchange::<Tries>(&mut seat.seat, 2 * cell as usize, 0, u64::from(x) + 1)
    }
}
