//! Why an image is not written.

use ds_base::NoMemory;

/// Why an image is not written.
#[derive(Clone, Copy, Debug)]
pub enum WriteError {
    /// The file would have so many bytes, 2^32 or more, which its offsets don't tell. They may be 2^64 or more: names of
    /// symbols share their bytes in the program, and have their own in the file.
    File { size: u128 },
    NoMemory,
}

impl From<NoMemory> for WriteError {
    ghost use Rattle.std.specs.Prelude.{◌≡◌};
    ghost use Rattle.dsym_write.specs.declared.error.WriteError.TheVariants as errors;

    ghost from_gives = { λ _ error. error ≡ errors.NoMemory };

    fn from(_error: NoMemory) -> WriteError {
        WriteError::NoMemory
    }
}
