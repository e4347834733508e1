//! A seat: a thread's right to step on the table.

ghost use Rattle.std.specs.Prelude.{◌≡◌, ℕ, ◌<◌, ◌≤◌, []};
ghost use Rattle.type_pool.specs.Pairs.{Has};

use crate::view::View;
use atomic_table::Seat;

/// The shares of all seats together.
pub const ALL_SHARES: u32 = 64;

/// A thread's right to step on a table, with its share of the right to close it.
///
/// Contracts see what the seat knows, as `known` of `specs/Seats.antt`: its share, the names that it noted, what it put
/// and what it bid. Of this the share alone exists at run time.
#[derive(Drop)]
pub struct PoolSeat {
    pub(crate) seat: Seat<(), View>,
    pub(crate) share: u32,
    ghost counted: { (seat.me.0.share ≡ share) × (1 ≤ share) × (share ≤ 64) },
    ghost near: { (cell name : ℕ) → Has seat.me.0.notes cell name → cell < seat.me.0.cells },
    ghost empty_handed: { seat.me.1 ≡ [] },
}

impl PoolSeat {
    ghost use Rattle.type_pool.specs.Seats.{known};

    /// The seat's share, 1 to 64.
    pub fn share(&self) -> u32
        ensures share { result ≡ (known self.now).share }
        ensures some { (1 ≤ result) × (result ≤ 64) }
    {
        self.share
    }
}
