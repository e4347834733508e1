//! What a seat knows.

ghost use Rattle.std.specs.Prelude.{ℕ, List};
ghost use Rattle.std.specs.Borrow.{ftrue};

use std::marker::Model;

/// What a seat knows. No value of it is made.
pub struct View {
    // The sizes of the table: its cells, and the names of the books that it takes.
    pub ghost cells: { ℕ },
    pub ghost names: { ℕ },
    // The seat's part of the right to close the table.
    pub ghost share: { ℕ },
    // Cells, each with the name that the seat found or put there.
    pub ghost notes: { List (ℕ × ℕ) },
    // Cells, each with the name that the seat put there.
    pub ghost puts: { List (ℕ × ℕ) },
    // Cells, each with a number that the seat bid there.
    pub ghost bids: { List (ℕ × ℕ) },
}

impl Model for View {
    ghost also_owns = { λ _. ftrue };
}
