//! Rows that one thread makes, with one seat or several.

ghost use Rattle.std.specs.Prelude.{◌≡◌, ◌<◌, length};
ghost use Rattle.type_pool.specs.Seats.{Belongs, known};

use crate::keyed::KeyedBook;
use crate::parts::{bid_ahead, bid_for, closed, open, other, same};
use std::process::Abort;
use type_pool::{ClosedPool, Found, Placing, Pool, PoolSeat, find};

fn is_placed(
    rt: &impl Abort,
    pool: &Pool,
    seat: &mut PoolSeat,
    book: &KeyedBook,
    x: u32,
    want: Placing,
)
    requires belongs { Belongs pool.now seat.old }
    requires book { (length book.now.keys.now ≡ pool.now.names) × (x < pool.now.names) }
    ensures belongs { Belongs pool.now seat.new }
    ensures share { (known seat.new).share ≡ (known seat.old).share }
{
    same(rt, pool.place(seat, book, x), want);
}

// The name is found at the cell, with the least number.
fn has_least(rt: &impl Abort, closed: &ClosedPool, book: &KeyedBook, x: u32, cell: u32, least: u64)
    requires { (length book.now.keys.now ≡ closed.now.names) × (x < closed.now.names) }
{
    same(rt, find(closed, book, x), Some(Found { cell, least }));
}

// The keys of 65 names that all differ and start at the first of 64 cells.
fn multiples_of_64() -> [u32; 65] {
    let mut keys = [0; 65];
    for x in 0..65u32 {
        keys[x as usize] = 64 * x;
    }
    keys
}

#[test]
fn other_names_fill_all_cells_that_are_probed(rt: HostRuntime) {
    let keys = multiples_of_64();
    let book = KeyedBook { keys: &keys };
    let (pool, mut seat) = open(&rt, rt.alloc(), 64, 65);
    for x in 0..64 {
        is_placed(&rt, &pool, &mut seat, &book, x, Placing::Cell(x));
    }
    is_placed(&rt, &pool, &mut seat, &book, 64, Placing::Crowded);
}

// Names 0 and 1 share the last cell, with the least number, and name 2 has the first.
fn have_cells(rt: &impl Abort, closed: ClosedPool, book: &KeyedBook)
    requires { (length book.now.keys.now ≡ closed.names) × (closed.names ≡ 3) }
{
    has_least(rt, &closed, book, 0, 63, 3);
    has_least(rt, &closed, book, 1, 63, 3);
    has_least(rt, &closed, book, 2, 0, u64::MAX);
    drop(closed);
}

// What a bid ahead answers.
fn is_bid_ahead(
    rt: &impl Abort,
    pool: &Pool,
    seat: &mut PoolSeat,
    book: &KeyedBook,
    x: u32,
    want: Option<u32>,
)
    requires belongs { Belongs pool.now seat.old }
    requires book { (length book.now.keys.now ≡ pool.now.names) × (x < pool.now.names) }
    ensures belongs { Belongs pool.now seat.new }
    ensures share { (known seat.new).share ≡ (known seat.old).share }
{
    same(rt, bid_ahead(pool, seat, book, x, 3), want);
}

// Of an empty cell nothing is seen, in a filled one an equal name or another.
#[test]
fn bids_ahead_are_made_where_equal_names_stand(rt: HostRuntime) {
    let book = KeyedBook {
        keys: &[63, 63, 127],
    };
    let (pool, mut seat) = open(&rt, rt.alloc(), 64, 3);
    is_bid_ahead(&rt, &pool, &mut seat, &book, 0, None);
    bid_for(&pool, &mut seat, &book, 0, 5);
    is_bid_ahead(&rt, &pool, &mut seat, &book, 1, Some(63));
    is_bid_ahead(&rt, &pool, &mut seat, &book, 2, None);
    is_placed(&rt, &pool, &mut seat, &book, 2, Placing::Cell(0));
    have_cells(&rt, closed(pool, seat), &book);
}

// Names 0 and 1 are equal and start at the last cell, and so does name 2, which is another.
#[test]
fn equal_names_of_two_seats_have_one_cell(rt: HostRuntime) {
    let book = KeyedBook {
        keys: &[63, 63, 127],
    };
    let (pool, mut first) = open(&rt, rt.alloc(), 64, 3);
    let mut second = other(&rt, &pool, &mut first);
    bid_for(&pool, &mut first, &book, 0, 5);
    bid_for(&pool, &mut second, &book, 1, 3);
    is_placed(&rt, &pool, &mut first, &book, 2, Placing::Cell(0));
    pool.join(&mut first, second);
    have_cells(&rt, closed(pool, first), &book);
}
