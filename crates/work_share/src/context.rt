//! With what a link works: its threads, its memory, and the gate that each of them passes.

ghost use Rattle.std.specs.Prelude.{◌≤◌};

use std::alloc::Global;

/// The threads that may work, and where memory is taken.
#[derive(Drop)]
pub struct Workers<'a, R> {
    /// By what threads are started.
    pub rt: &'a R,
    pub alloc: Global,
    /// How many threads may work beside each other, the caller's among them.
    pub count: u32,
    ghost few: { (1 ≤ count) × (count ≤ 64) },
}

/// Workers, and the gate that is passed for each item of their work.
#[derive(Drop)]
pub struct Work<'a, 'b, R, G> {
    pub workers: &'a Workers<'b, R>,
    pub gate: &'a G,
}
