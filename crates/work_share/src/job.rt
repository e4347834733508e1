//! What is done for each item of a phase.
ghost use Rattle.std.specs.Prelude.{ℕ};

/// A job for items that are counted from 0.
///
/// `takes` are the items for which it may be run, and `gives` is what an item may give.
pub trait Job {
    type Out: Send + Drop;

    ghost takes: { Self → ℕ → Type 0 };

    ghost gives: { Self → ℕ → Self.Out → Type 0 };

    fn run(&self, item: u32) -> Self::Out
        requires { takes self.now item }
        ensures { gives self.now item result };
}
