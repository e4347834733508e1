//! Why a link is refused.

use ds_base::{Fault, NoMemory};

/// A limit that a link can reach (docs/PROFILE.md, "Limits").
#[derive(Clone, Copy, Debug, PartialEq, Eq)]
pub enum LimitKind {
    /// The objects of a debug map.
    Objects,
    /// The bytes of all files that are read.
    Input,
    /// The entries whose names are merged.
    Pooled,
    /// The bytes of an output unit.
    Unit,
    /// The bytes of an output section.
    Section,
    /// The bytes of the image.
    File,
}

/// Why a link is refused.
#[derive(Clone, Copy, Debug, PartialEq, Eq)]
pub enum Refusal {
    /// The file's first fault; 0 is the program, and its objects follow from 1.
    Faulty { file: u32, fault: Fault },
    /// The limit was reached.
    Limit { which: LimitKind, number: u64 },
    /// Memory ran out.
    NoMemory,
}

impl From<NoMemory> for Refusal {
    ghost use Rattle.std.specs.Prelude.{◌≡◌};
    ghost use Rattle.link_status.specs.declared.refusal.Refusal.TheVariants as refusals;

    ghost from_gives = { λ _ refusal. refusal ≡ refusals.NoMemory };

    fn from(_error: NoMemory) -> Refusal {
        Refusal::NoMemory
    }
}
