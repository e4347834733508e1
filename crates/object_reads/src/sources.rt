//! The objects of a program.

ghost use Rattle.std.specs.Prelude.{◌≡◌, ◌+◌, ◌<◌, ◌≤◌, ◌^◌, length};

use stab_map::MapObject;

/// The objects of one of several programs, which are read together.
#[derive(Drop)]
pub struct Sources<'a> {
    /// The objects of the debug maps of all programs, which are numbered from 1.
    pub objects: &'a [MapObject],
    /// For each the number of its file, counted from 0. An object without one has no entries.
    pub numbers: &'a [Option<u32>],
    /// The first object of the program, counted from 0.
    pub first: u32,
    /// The first object behind its last.
    pub end: u32,
    ghost all: { length objects.now < 2 ^ 20 },
    ghost each: { length numbers.now ≡ length objects.now },
    ghost order: { first ≤ end },
    ghost within: { end ≤ length objects.now },
    ghost few: { end < first + 2 ^ 16 },
}
