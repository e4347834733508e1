//! Four threads place the same names over one table and bid for them.

ghost use Rattle.std.specs.Prelude.{◌≡◌, ◌+◌, ◌<◌, ◌≤◌, length};
ghost use Rattle.std.specs.Thread.{IsSync};
ghost use Rattle.type_pool.specs.Seats.{Belongs, known};

use crate::keyed::KeyedBook;
use crate::parts::{bid_for, closed, open, other, same};
use std::process::Abort;
use std::thread::{Threads, join};
use type_pool::{ClosedPool, Pool, PoolSeat, find};

const NAMES: u32 = 1000;

const CELLS: u32 = 2048;

// What a thread bids for a name.
fn number_of(x: u64, thread: u64) -> u64 {
    x.wrapping_mul(7919)
        .wrapping_add(thread.wrapping_mul(104_729))
        % 100_003
}

// The keys of names of which 300 are equal to others.
fn thousand_keys() -> [u32; 1000] {
    let mut keys = [0; 1000];
    for x in 0..NAMES {
        keys[x as usize] = x % 700 * 11;
    }
    keys
}

// Places every name, and bids for it.
fn bid_all(pool: &Pool, mut seat: PoolSeat, keys: &[u32], thread: u64) -> PoolSeat
    requires belongs { Belongs pool.now seat }
    requires keys { (length keys.now ≡ 1000) × (pool.now.names ≡ 1000) }
    ensures belongs { Belongs pool.now result }
    ensures share { (known result).share ≡ (known seat).share }
{
    let book = KeyedBook { keys };
    for x in 0..NAMES {
        bid_for(pool, &mut seat, &book, x, number_of(u64::from(x), thread));
    }
    seat
}

// So many times the thread and all that it starts fork in two. Each then places every name, and bids for it.
//
// A thread of number n goes on as number 2n, and starts number 2n + 1.
#[cycle(bidders)]
fn bid_by<R: Threads + Abort + Sync>(
    rt: &R,
    pool: &Pool,
    mut seat: PoolSeat,
    keys: &[u32],
    forks: u32,
    thread: u64,
) -> PoolSeat
    requires belongs { Belongs pool.now seat }
    requires keys { (length keys.now ≡ 1000) × (pool.now.names ≡ 1000) }
    ensures belongs { Belongs pool.now result }
    ensures share { (known result).share ≡ (known seat).share }
{
    if forks == 0 {
        return bid_all(pool, seat, keys, thread);
    }
    let other = other(rt, pool, &mut seat);
    let left = forks - 1;
    let even = thread.wrapping_mul(2);
    let odd = even.wrapping_add(1);
    let (mut seat, other) = join(
        rt,
        move || -> PoolSeat
            requires rt { IsSync R.row }
            requires belongs { Belongs pool.now seat }
            requires keys { (length keys.now ≡ 1000) × (pool.now.names ≡ 1000) }
            ensures belongs { Belongs pool.entry.now result }
            ensures share { (known result).share ≡ (known seat).share }
        { bid_by(rt, pool, seat, keys, left, even) },
        move || -> PoolSeat
            requires rt { IsSync R.row }
            requires belongs { Belongs pool.now other }
            requires keys { (length keys.now ≡ 1000) × (pool.now.names ≡ 1000) }
            ensures belongs { Belongs pool.entry.now result }
            ensures share { (known result).share ≡ (known other).share }
        { bid_by(rt, pool, other, keys, left, odd) },
    );
    pool.join(&mut seat, other);
    seat
}

// The least number that the four threads bid for names with this key.
fn plain_least(keys: &[u32], key: u32) -> u64 {
    let mut least = u64::MAX;
    for (x, other) in keys.iter().enumerate() {
        if *other == key {
            for thread in 0..4 {
                least = least.min(number_of(x as u64, thread));
            }
        }
    }
    least
}

// The name is found, with the plain minimum.
fn has_plain_minimum(rt: &impl Abort, closed: &ClosedPool, keys: &[u32], x: u32)
    requires { (length keys.now ≡ closed.now.names) × (x < closed.now.names) }
{
    let wanted = plain_least(keys, keys[x as usize]);
    let found = find(closed, &KeyedBook { keys }, x).expect(rt, "a cell");
    same(rt, found.least, wanted);
}

#[test]
fn four_threads_leave_the_plain_minimum(rt: HostRuntime) {
    let keys = thousand_keys();
    let (pool, seat) = open(&rt, rt.alloc(), CELLS, NAMES);
    let seat = bid_by(&rt, &pool, seat, &keys, 2, 0);
    let closed = closed(pool, seat);
    for x in 0..NAMES {
        has_plain_minimum(&rt, &closed, &keys, x);
    }
}
