//! For which program objects are read.

use universal::Arch;

/// What of a program its objects are read for.
#[derive(Clone, Copy)]
pub struct Target {
    /// For which slice of a universal file an object is read: the CPU type and subtype of the program's record in its own
    /// universal file, or those in its header.
    pub arch: Arch,
    /// The CPU type in its header.
    pub cpu: u32,
}
