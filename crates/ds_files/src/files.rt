//! Files by their names.

use crate::ahead::Ahead;
use ds_base::{Bytes, NoMemory};
use std::alloc::Global;

/// Why a file was not read or replaced.
#[derive(Clone, Copy, Debug, PartialEq, Eq)]
pub enum FileError {
    /// There is no file of that name.
    Missing,
    /// The file could not be read or written.
    Failed,
    /// The file has more bytes than the call allows.
    TooLong,
    /// Memory ran out, and nothing changed but the count of calls.
    NoMemory,
}

impl From<NoMemory> for FileError {
    ghost use Rattle.std.specs.Prelude.{◌≡◌};
    ghost use Rattle.ds_files.specs.declared.files.FileError.TheVariants as errors;

    ghost from_gives = { λ _ error. error ≡ errors.NoMemory };

    fn from(_error: NoMemory) -> FileError {
        FileError::NoMemory
    }
}

/// Files that are read and replaced whole, each by its name.
///
/// `files` are the files where they are told, a map from the bytes of a name to the bytes of the file. `counts` says
/// how many calls of [`Files::read`] and [`Files::replace`] there were, and how often one failed, missed its file, and
/// found it too long. No count ever falls, and one that stands at 2^64 - 1, its last value, counts as risen. A call that
/// goes well is counted as a call alone.
///
/// [`Files::size_ahead`], [`Files::fetch`] and [`Files::keep`] serve [`crate::fetch_ahead`]: by them files may be read
/// before they are asked for. Where that gains nothing, the first two answer `None`, and the third does nothing.
pub trait Files {
    ghost use Rattle.std.specs.Prelude.{◌≡◌, ◌≤◌, length, Some, IfOk, IfSome, OnOk, IfErr, option_map};
    ghost use Rattle.std.specs.declared.option.Option.{Option as Maybe};
    ghost use Rattle.std.specs.FinMap as map;
    ghost use Rattle.ds_files.specs.Outside.{Contents, Counts, IsLater, IsOneCall, Told, IsLong, IsQuiet, ReadFails, RefusesLong, ReplaceFails, called};

    /// The files, where they are told.
    ghost files: { Self → Maybe Contents };

    /// How many calls there were, and what went wrong, how often.
    ghost counts: { Self → Counts };

    /// All bytes of the named file, which are at most `most`. No file changes.
    fn read(&mut self, alloc: Global, name: &str, most: u64) -> Result<Bytes, FileError>
        ensures found { IfOk result (λ b. (length b ≤ most) × Told (files self.old) (λ m. map.get m name.now ≡ Some b)) }
        ensures quiet { IfOk result (λ _. counts self.new ≡ called (counts self.old)) }

        // Each error has its cause. A file that is too long is answered so, unless memory ran out or a failure or a
        // missing file was counted.
        ensures failed { IfErr result (ReadFails (files self.old) name.now most (counts self.old) (counts self.new)) }
        ensures long { Told (files self.old) (λ m. IsLong name.now most m → IsQuiet (counts self.old) (counts self.new) → RefusesLong result) }

        ensures same { files self.new ≡ files self.old }
        ensures called { IsOneCall (counts self.old) (counts self.new) }
        ensures later { IsLater (counts self.old) (counts self.new) };

    /// Gives the name these bytes, whether or not there was a file of it, and leaves all other names.
    ///
    /// It answers only `Failed`, and then the named file is of unknown content or absent, or `NoMemory`.
    fn replace(&mut self, alloc: Global, name: &str, bytes: &[u8]) -> Result<(), FileError>
        ensures done { OnOk result (files self.new ≡ option_map (λ m. map.insert m name.now bytes.now) (files self.old)) }
        ensures quiet { OnOk result (counts self.new ≡ called (counts self.old)) }
        ensures failed { IfErr result (ReplaceFails (files self.old) (files self.new) name.now (counts self.old) (counts self.new)) }
        ensures called { IsOneCall (counts self.old) (counts self.new) }
        ensures later { IsLater (counts self.old) (counts self.new) };

    /// How many bytes the named file is said to have, where it may be fetched before it is asked for.
    fn size_ahead(&self, name: &str) -> Option<u64>;

    /// All bytes of the named file, before it is asked for. It is `None` where they are more than `most` or can't be read:
    /// nothing is counted, and what fails is told when the file is asked for.
    fn fetch(&self, alloc: Global, name: &str, most: u64) -> Option<Bytes>
        ensures within { IfSome result (λ b. length b ≤ most) };

    /// Keeps files that were fetched until they are asked for, in the place of those that it kept before.
    fn keep(&mut self, ahead: Ahead)
        ensures same { files self.new ≡ files self.old }
        ensures counted { counts self.new ≡ counts self.old };
}
