//! Which names are equal, and where the search for a name begins.

ghost use Rattle.std.specs.Prelude.{◌≡◌, ℕ, ◌<◌, ◌≤◌, ◌↔◌, IsTrue};

/// A book of names, which are numbered from 0.
///
/// Equality of names is an equivalence. Equal names have equal starts, and a start is a cell.
pub trait NameBook {
    // How many names there are.
    ghost size: { Self → ℕ };
    // Two names are equal.
    ghost same: { Self → ℕ → ℕ → Type 0 };
    // The cell at which the search for a name begins, in a table of so many cells.
    ghost start_of: { Self → ℕ → ℕ → ℕ };

    /// Whether two names are equal.
    fn equal(&self, a: u32, b: u32) -> bool
        requires { (a < size self.now) × (b < size self.now) }
        ensures { IsTrue result ↔ same self.now a b };

    /// The cell, below `cells`, at which the search for the name `x` begins.
    fn start(&self, x: u32, cells: u32) -> u32
        requires { (x < size self.now) × (1 ≤ cells) }
        ensures { result ≡ start_of self.now x cells };

    ghost reflexive: { (book : Self) (a : ℕ) → a < size book → same book a a };

    ghost symmetric: { (book : Self) (a b : ℕ) → a < size book → b < size book → same book a b → same book b a };

    ghost transitive: { (book : Self) (a b c : ℕ) → a < size book → b < size book → c < size book → same book a b → same book b c → same book a c };

    ghost one_start: { (book : Self) (a b cells : ℕ) → a < size book → b < size book → 1 ≤ cells → same book a b → start_of book a cells ≡ start_of book b cells };

    ghost inside: { (book : Self) (a cells : ℕ) → a < size book → 1 ≤ cells → start_of book a cells < cells };
}
