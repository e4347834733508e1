//! What tests do with tables, and how what a call answers is compared.

ghost use Rattle.std.specs.Prelude.{◌≡◌, ◌+◌, ◌<◌, ◌^◌, ◌≤◌, length};
ghost use Rattle.type_pool.specs.Seats.{Belongs, known};

use crate::keyed::KeyedBook;
use pool_core::NameBook;
use std::alloc::Global;
use std::process::Abort;
use type_pool::{ClosedPool, Placing, Pool, PoolSeat, pool};

/// What was seen is what was wanted.
pub(crate) fn same<T: Copy + PartialEq>(rt: &impl Abort, seen: T, want: T) {
    assert!(rt; seen == want);
}

/// A table of empty cells with its first seat.
pub(crate) fn open(rt: &impl Abort, alloc: Global, cells: u32, names: u32) -> (Pool, PoolSeat)
    requires { (64 ≤ cells) × (cells ≤ 2 ^ 24) }
    ensures names { result.0.names ≡ names }
    ensures belongs { Belongs result.0 result.1 }
    ensures share { (known result.1).share ≡ 64 }
{
    pool(alloc, cells, names).expect(rt, "memory")
}

/// A second seat, with a part of the first one's share.
pub(crate) fn other(rt: &impl Abort, pool: &Pool, seat: &mut PoolSeat) -> PoolSeat
    requires { Belongs pool.now seat.old }
    ensures belongs { Belongs pool.now seat.new × Belongs pool.now result }
    ensures share { (known seat.new).share + (known result).share ≡ (known seat.old).share }
{
    pool.split(seat).expect(rt, "a share to split")
}

/// Places the name, and bids at its cell.
pub(crate) fn bid_for(pool: &Pool, seat: &mut PoolSeat, book: &KeyedBook, x: u32, number: u64)
    requires belongs { Belongs pool.now seat.old }
    requires book { (length book.now.keys.now ≡ pool.now.names) × (x < pool.now.names) }
    ensures belongs { Belongs pool.now seat.new }
    ensures share { (known seat.new).share ≡ (known seat.old).share }
{
    match pool.place(seat, book, x) {
        Placing::Cell(cell) => pool.bid(seat, cell, number),
        Placing::Crowded => {}
    }
}

/// Bids where the name is looked for first, if an equal name is seen there, and gives that cell.
pub(crate) fn bid_ahead(
    pool: &Pool,
    seat: &mut PoolSeat,
    book: &KeyedBook,
    x: u32,
    number: u64,
) -> Option<u32>
    requires belongs { Belongs pool.now seat.old }
    requires book { (length book.now.keys.now ≡ pool.now.names) × (x < pool.now.names) }
    ensures belongs { Belongs pool.now seat.new }
    ensures share { (known seat.new).share ≡ (known seat.old).share }
{
    let name = pool.look_ahead(seat, book, x)?;
    if book.equal(name, x) {
        Some(pool.settle(seat, book, x, number))
    } else {
        None
    }
}

/// The table, closed by the seat that has every share.
pub(crate) fn closed(pool: Pool, seat: PoolSeat) -> ClosedPool
    requires belongs { Belongs pool seat }
    requires whole { (known seat).share ≡ 64 }
    ensures { result.names ≡ pool.names }
{
    let Ok(closed) = pool.close(seat) else {
        unreachable!()
    };
    closed
}
