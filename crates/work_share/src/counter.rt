//! The counter and its seats.
ghost use Rattle.std.specs.Prelude.{◌≡◌, ◌^◌, ◌<◌, ◌≤◌, ◌↔◌, true, [], is_some, IfSome, IfNone, IsNone};
ghost use Rattle.work_share.specs.Numbers.{above, left};
ghost use Rattle.work_share.specs.Counter.{drew, kept_half, given_half, united};
ghost use Rattle.work_share.specs.Fair.{IsFair, Keeps};

use crate::steps::{Counting, Draw, Halves, Look};
use crate::view::TaskView;
use atomic_table::{Seat, Table};
use std::alloc::Global;

/// A counter that gives each number once, to any thread that holds a seat.
#[derive(Drop)]
pub struct Tasks {
    pub(crate) table: Table<(), TaskView, u32, Counting, Global>,
    pub(crate) count: u32,
    ghost sized: { (table.shared.key ≡ count) × (count < 2 ^ 32) × (table.shared.table_id.words ≡ 1) × (table.shared.table_id.slots ≡ 0) },
}

/// A thread's right to draw from a counter.
///
/// It has a share of the 64 with which the first seat begins. A seat that drew a number at or above the count has come
/// to its end: it keeps that number, and draws no more.
#[derive(Drop)]
pub struct TaskSeat {
    pub(crate) seat: Seat<(), TaskView>,
    pub(crate) share: u32,
    pub(crate) has_ended: bool,
    ghost counted: { (seat.me.0.share ≡ share) × (1 ≤ share) × (share ≤ 64) },
    ghost ended: { is_some seat.me.0.kept ≡ has_ended },
    ghost fair: { IsFair seat.me.0 },
    ghost bare: { seat.me.1 ≡ [] },
}

impl TaskSeat {
    ghost use Rattle.work_share.specs.Seats.{known};

    /// The seat's share: 64 for the first seat, at least 1 for each.
    pub fn share(&self) -> u32
        ensures share { result ≡ (known self.now).share }
        ensures bounds { (1 ≤ result) × (result ≤ 64) }
    {
        self.share
    }

    /// What is so of each seat at any time, whoever else draws.
    pub fn fairness(&self)
        ensures { IsFair (known self.now) }
    {}
}

impl Tasks {
    ghost use Rattle.work_share.specs.Seats.{known, Belongs};

    /// The next number below the count, or `None` once the numbers are used up.
    ///
    /// A call draws one number at most. No other claim ever draws it, as two seats see once they are joined, and it is
    /// greater than every number that the seat drew before.
    pub fn claim(&self, seat: &mut TaskSeat) -> Option<u32>
        requires { Belongs self.now seat.old }

        // The seat drew a number below the count.
        ensures some { IfSome result (λ n. (n < self.now.count) × (above (known seat.old).drawn ≤ n) × (known seat.new ≡ drew (known seat.old) n)) }
        ensures nearer { IfSome result (λ n. left self.now.count (known seat.new).drawn < left self.now.count (known seat.old).drawn) }

        // The seat keeps a number that is not below the count, since now or since before.
        ensures none { IfNone result (Keeps self.now.count (known seat.old) (known seat.new)) }
        ensures ended { IsNone result ↔ (is_some (known seat.new).kept ≡ true) }

        ensures fair { IsFair (known seat.new) }
        ensures belongs { Belongs self.now seat.new }
    {
        if seat.has_ended {
            return None;
        }
        let next = self.table.shared.fetch_add::<Draw>(&mut seat.seat, 0, 1);
        if next < u64::from(self.count) {
            Some(next as u32)
        } else {
            seat.has_ended = true;
            None
        }
    }

    /// A new seat with half of the seat's share, rounded down, or `None` exactly where the share is 1.
    ///
    /// The new seat has drawn nothing. Where the seat has come to its end, so has the new one.
    pub fn split(&self, seat: &mut TaskSeat) -> Option<TaskSeat>
        requires { Belongs self.now seat.old }

        ensures some { IfSome result (λ new. (known seat.new ≡ kept_half (known seat.old)) × (known new ≡ given_half (known seat.old))) }
        ensures none { IsNone result ↔ ((known seat.old).share ≡ 1) }
        ensures unchanged { IfNone result (known seat.new ≡ known seat.old) }

        ensures fair { IsFair (known seat.new) × IfSome result (λ new. IsFair (known new)) }
        ensures belongs { Belongs self.now seat.new × IfSome result (λ new. Belongs self.now new) }
    {
        if seat.share < 2 {
            return None;
        }
        let given = self.table.shared.split_seat::<Halves>(&mut seat.seat);
        let share = seat.share / 2;
        seat.share -= share;
        Some(TaskSeat {
            seat: given,
            share,
            has_ended: seat.has_ended,
        })
    }

    /// Makes two seats one: the shares are added, and what either drew or kept is the seat's.
    pub fn join(&self, seat: &mut TaskSeat, other: TaskSeat)
        requires seat { Belongs self.now seat.old }
        requires other { Belongs self.now other }

        ensures united { known seat.new ≡ united (known seat.old) (known other) }

        ensures fair { IsFair (known seat.new) }
        ensures belongs { Belongs self.now seat.new }
    {
        let TaskSeat {
            seat: theirs,
            share,
            has_ended,
        } = other;
        self.table
            .shared
            .join_seat::<Halves>(&mut seat.seat, theirs);
        self.table.shared.load::<Look>(&mut seat.seat, 0);
        seat.share += share;
        seat.has_ended = seat.has_ended || has_ended;
    }
}
