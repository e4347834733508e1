//! What one worker does: it claims objects, bids for their names, and notes where these were placed.

ghost use Rattle.std.specs.Prelude.{ℕ, ◌≡◌, ◌+◌, ◌^◌, ◌<◌, ◌≤◌, length, IfOk, IfSome, OnErr, OnOk};
ghost use Rattle.std.specs.Vec.{vec_capacity};
ghost use Rattle.name_bids.specs.Ahead.{IsBetween, IsEqualAhead};
ghost use Rattle.name_bids.specs.Bids.{HasBid, IsOfObject};
ghost use Rattle.name_bids.specs.Noting.{AreCellsFrom, AreCellsOf, IsOneOf, IsPlacedAt, cell_in, cell_of};
ghost use Rattle.name_bids.specs.Sharing.{AreFor, HasStopped, HasWorked, MayShare, seat_view, turn_view};
ghost use Rattle.type_pool.specs.Seats.{Belongs};

use crate::ahead::{TOGETHER, keep_equal, leave_others, look_ahead};
use ds_base::NoMemory;
use ds_files::Gate;
use odr_names::{KnownBook, PathBook, first_of, names_are_few, number};
use std::alloc::Global;
use type_pool::{Placing, Pool, PoolSeat};
use work_share::{TaskSeat, Tasks};

/// The phase of a link in which names are bid for.
pub const BID: u32 = 1;

/// The cells of the names of an object, in their order.
#[derive(Drop)]
pub struct ObjectCells {
    /// The first of these names.
    pub(crate) first: u32,
    /// For each name its cell, as it is noted.
    pub(crate) cells: Vec<u32>,
}

/// What one worker does for the names of a book over a shared table, until no task is left: task i is object i + 1.
///
/// For each task it passes the gate once, places each name of the object, bids for it at its cell, and notes the cell. A
/// crowded name has no cell. It gives the cells of the names of all objects that were claimed. The seats are lent: where
/// memory runs out at a task, the names of the tasks before it have their bids, and none of it has.
pub fn bid_objects<G: Gate>(
    alloc: Global,
    pool: &Pool,
    seat: &mut PoolSeat,
    names: &PathBook,
    work: &Tasks,
    turn: &mut TaskSeat,
    gate: &G,
) -> Result<Vec<ObjectCells>, NoMemory>
    requires book { AreFor names.now pool.now work.now }
    requires seats { MayShare pool.now work.now seat.old turn.old 1 }
    ensures worked { IfOk result (λ noted. HasWorked names.now pool.now work.now (seat_view seat.old) (turn_view turn.old) seat.new turn.new noted.items) }
    ensures stopped { OnErr result (HasStopped names.now pool.now work.now (seat_view seat.old) (turn_view turn.old) seat.new turn.new) }
{
    let mut noted = Vec::new(alloc);
    while let Some(task) = work.claim(turn) {
        gate.pass(BID, task);
        noted.reserve(1)?;
        let own = bid_object(alloc, pool, seat, names, task + 1)?;
        noted.push_reserved(own);
    }
    Ok(noted)
}

/// Bids for the names of an object, and gives their cells. Where memory runs out it has bid for none.
///
/// So many names are looked at together before they are placed ([`crate::ahead`]).
fn bid_object(
    alloc: Global,
    pool: &Pool,
    seat: &mut PoolSeat,
    names: &PathBook,
    object: u32,
) -> Result<ObjectCells, NoMemory>
    requires belongs { Belongs pool.now seat.old }
    requires book { length names.now ≡ pool.now.names }
    requires object { object ≤ 2 ^ 16 }
    ensures bid { OnOk result (HasBid names.now pool.now.cells (seat_view seat.old) (seat_view seat.new) (IsOfObject names.now object)) }
    ensures cells { IfOk result (λ own. AreCellsOf (length names.now) (IsPlacedAt names.now pool.now.cells (seat_view seat.new).notes) own) }
    ensures whole { IfOk result (λ own. (x : ℕ) → IsOfObject names.now object x → IsOneOf own x) }
    ensures share { OnOk result ((seat_view seat.new).share ≡ (seat_view seat.old).share) }
    ensures belongs { OnOk result (Belongs pool.now seat.new) }
    ensures unchanged { OnErr result (seat.new ≡ seat.old) }
{
    names_are_few(names);
    let first = first_of(names, object);
    let end = first_of(names, object + 1);
    let count = (end - first) as usize;
    let mut seen = Vec::with_capacity(alloc, TOGETHER as usize)?;
    let mut likely = Vec::with_capacity(alloc, TOGETHER as usize)?;
    let mut known = Vec::with_capacity(alloc, count)?;
    let mut cells = Vec::with_capacity(alloc, count)?;
    let mut x = first;
    while x < end {
        let to = x + (end - x).min(TOGETHER);
        look_ahead(pool, seat, names, x, to, &mut seen);
        leave_others(names, x, &seen, &mut likely);
        keep_equal(names, first, &likely, &mut known);
        bid_known(pool, seat, names, first, &known, &mut cells);
        x = to;
    }
    Ok(ObjectCells { first, cells })
}

/// Bids for the names behind those that have cells already, up to the last of which something is known, and puts their
/// cells behind these.
fn bid_known(
    pool: &Pool,
    seat: &mut PoolSeat,
    names: &PathBook,
    first: u32,
    known: &[u32],
    cells: &mut Vec<u32>,
)
    requires belongs { Belongs pool.now seat.old }
    requires book { (length names.now ≡ pool.now.names) × (length names.now < 2 ^ 25) }
    requires some { length cells.old.items ≤ length known.now }
    requires room { length known.now ≤ vec_capacity cells.old }
    requires known { AreCellsFrom (length names.now) (IsEqualAhead names.now pool.now.cells (seat_view seat.old).notes) first known.now }
    requires cells { AreCellsFrom (length names.now) (IsPlacedAt names.now pool.now.cells (seat_view seat.old).notes) first cells.old.items }
    ensures bid { HasBid names.now pool.now.cells (seat_view seat.old) (seat_view seat.new) (IsBetween (first + length cells.old.items) (first + length known.now)) }
    ensures cells { AreCellsFrom (length names.now) (IsPlacedAt names.now pool.now.cells (seat_view seat.new).notes) first cells.new.items }
    ensures len { length cells.new.items ≡ length known.now }
    ensures share { (seat_view seat.new).share ≡ (seat_view seat.old).share }
    ensures belongs { Belongs pool.now seat.new }
    ensures capacity { vec_capacity cells.new ≡ vec_capacity cells.old }
{
    let book = KnownBook {
        names,
        first,
        words: known,
    };
    for i in cells.len()..known.len() {
        let placing = bid_name(pool, seat, &book, first + i as u32, known[i]);
        cells.push_reserved(noted(placing));
    }
}

/// Bids for one name at the cell at which it is placed, and gives where that is. Where a name with its path was seen in its
/// first cell, that is the cell.
fn bid_name(pool: &Pool, seat: &mut PoolSeat, book: &KnownBook, x: u32, known: u32) -> Placing
    requires belongs { Belongs pool.now seat.old }
    requires book { (length book.now.names.now ≡ pool.now.names) × (x < length book.now.names.now) }
    requires known { IsEqualAhead book.now.names.now pool.now.cells (seat_view seat.old).notes x (cell_in known) }
    ensures bid { HasBid book.now.names.now pool.now.cells (seat_view seat.old) (seat_view seat.new) (λ y. y ≡ x) }
    ensures placed { IsPlacedAt book.now.names.now pool.now.cells (seat_view seat.new).notes x (cell_of result) }
    ensures inside { IfSome (cell_of result) (λ cell. cell < 2 ^ 24) }
    ensures share { (seat_view seat.new).share ≡ (seat_view seat.old).share }
    ensures belongs { Belongs pool.now seat.new }
{
    let bid = number(book.names, x);
    if known != 0 {
        return Placing::Cell(pool.settle(seat, book, x, bid));
    }
    let placing = pool.place(seat, book, x);
    match placing {
        Placing::Cell(cell) => pool.bid(seat, cell, bid),
        Placing::Crowded => {}
    }
    placing
}

/// Where a name was placed, as it is noted: one more than its cell, or 0 where it is crowded.
fn noted(placing: Placing) -> u32
    requires { IfSome (cell_of placing) (λ cell. cell < 2 ^ 24) }
    ensures { cell_in result ≡ cell_of placing }
{
    match placing {
        Placing::Cell(cell) => cell + 1,
        Placing::Crowded => 0,
    }
}

/// The cell that is noted.
pub(crate) fn noted_cell(word: u32) -> Option<u32>
    ensures { result ≡ cell_in word }
{
    if word == 0 { None } else { Some(word - 1) }
}
