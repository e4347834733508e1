//! A file of objects as it is read for a program.

ghost use Rattle.std.specs.Prelude.{◌≡◌, ◌<◌, ◌^◌, length};

use ar_read::Members;
use ds_base::Fault;

/// A file that isn't universal, or the slice of one that is for the program.
#[derive(Drop)]
pub(crate) struct ThinFile<'a> {
    pub bytes: &'a [u8],
    /// Its members, if it is an archive.
    pub members: Members<'a>,
    ghost same: { members ≡ bytes.now },
    ghost small: { length bytes.now < 2 ^ 32 },
}

/// What a file is for a program.
#[derive(Drop)]
pub(crate) enum Opened<'a> {
    Thin(ThinFile<'a>),
    /// It is universal, and has no slice for the program, or its slices can't be read.
    Refused(Fault),
}
