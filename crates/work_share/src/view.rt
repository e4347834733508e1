//! What a seat of a counter knows.
ghost use Rattle.std.specs.Prelude.{ℕ, List};
ghost use Rattle.std.specs.Borrow.{ftrue};
ghost use Rattle.std.specs.declared.option.Option.{Option};

use std::marker::Model;

/// The count of the counter, the seat's share, the numbers that it drew, and the one that it keeps since its end. No
/// value of it is made.
pub struct TaskView {
    pub ghost count: { ℕ },
    pub ghost share: { ℕ },
    pub ghost drawn: { List ℕ },
    pub ghost kept: { Option ℕ },
}

impl Model for TaskView {
    ghost also_owns = { λ _. ftrue };
}
