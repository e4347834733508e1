//! The rule of a counter, and the names of its steps. These types are for the proofs alone.
ghost use Rattle.work_share.specs.Counter.{Sound, fresh, kept_half, given_half, united, nobody};
ghost use Rattle.work_share.specs.Steps.{drawing, looking};

use crate::view::TaskView;
use atomic_table::{Join, Play, Split, TableRule};

#[derive(Clone, Copy)]
pub struct Counting;

impl TableRule<(), TaskView, u32> for Counting {
    ghost holds = { Sound };

    ghost first = { fresh };
}

/// Draws the next number.
pub struct Draw;

impl Play<(), TaskView> for Draw {
    ghost then = { drawing };
}

/// Loads the next number, and draws nothing.
pub struct Look;

impl Play<(), TaskView> for Look {
    ghost then = { looking };
}

/// How seats are split and joined.
pub struct Halves;

impl Split<TaskView> for Halves {
    ghost left = { kept_half };

    ghost right = { given_half };
}

impl Join<TaskView> for Halves {
    ghost both = { united };

    ghost spent = { nobody };
}
