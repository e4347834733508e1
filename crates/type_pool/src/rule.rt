//! What holds of the table between any two steps, and what each step tells its seat.

ghost use Rattle.type_pool.specs.Keeping.{Kept};
ghost use Rattle.type_pool.specs.Told.{looked, tried, underbid, weighed};
ghost use Rattle.type_pool.specs.Views.{first_view, given_half, kept_half, spent, united};

use crate::view::View;
use atomic_table::{Join, Play, Split, TableRule};

/// The sizes of a table: its cells, and the names of the books that it takes.
#[derive(Clone, Copy)]
pub struct Size {
    pub cells: u32,
    pub names: u32,
}

/// The rule of the table.
pub struct Interning;

impl TableRule<(), View, Size> for Interning {
    ghost holds = { Kept };

    ghost first = { λ k. first_view k.cells k.names };
}

/// A load of a cell.
pub struct Looks;

impl Play<(), View> for Looks {
    ghost then = { looked };
}

/// An exchange that brings a name to a cell.
pub struct Tries;

impl Play<(), View> for Tries {
    ghost then = { tried };
}

/// A bid on a least word.
pub struct Underbids;

impl Play<(), View> for Underbids {
    ghost then = { underbid };
}

/// A load that bounds the seat's share.
pub struct Weighs;

impl Play<(), View> for Weighs {
    ghost then = { weighed };
}

/// Seats in two halves.
pub struct Halves;

impl Split<View> for Halves {
    ghost left = { kept_half };

    ghost right = { given_half };
}

impl Join<View> for Halves {
    ghost both = { united };

    ghost spent = { spent };
}
