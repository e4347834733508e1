//! The parts of a universal file, and why they aren't joined.

use ds_base::{Bytes, NoMemory};

/// A file for one CPU, with the CPU type and subtype that its record is to have (mach/machine.h).
#[derive(Drop)]
pub struct Thin {
    pub cpu: u32,
    pub sub: u32,
    pub bytes: Bytes,
}

/// What the record of a part says, but its offset: for a part that stands in the room of the file already.
#[derive(Clone, Copy)]
pub struct Appended {
    pub cpu: u32,
    pub sub: u32,
    /// In bytes.
    pub size: u32,
}

/// Why parts aren't joined.
#[derive(Clone, Copy, Debug)]
pub enum JoinError {
    /// The file would have so many bytes, 2^32 or more, which its offsets don't tell.
    File { size: u128 },
    NoMemory,
}

impl From<NoMemory> for JoinError {
    ghost use Rattle.std.specs.Prelude.{◌≡◌};
    ghost use Rattle.universal.specs.declared.parts.JoinError.TheVariants as errors;

    ghost from_gives = { λ _ error. error ≡ errors.NoMemory };

    fn from(_error: NoMemory) -> JoinError {
        JoinError::NoMemory
    }
}
