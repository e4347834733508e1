//! Why texts have no section.

use ds_base::NoMemory;
use std::alloc::{AllocError, AllocFailed};

/// Why texts were not joined.
#[derive(Clone, Copy, Debug)]
pub enum TextError {
    /// The section would have 2^32 - 1 bytes or more, and offsets have four bytes (DWARF 4, section 7.4).
    Long,
    /// Memory ran out.
    NoMemory,
}

impl From<AllocError> for TextError {
    ghost use Rattle.std.specs.Prelude.{◌≡◌};
    ghost use Rattle.text_pool.specs.declared.error.TextError.TheVariants as errors;

    ghost from_gives = { λ _ error. error ≡ errors.NoMemory };

    fn from(_error: AllocError) -> TextError {
        TextError::NoMemory
    }
}

impl From<NoMemory> for TextError {
    ghost use Rattle.std.specs.Prelude.{◌≡◌};
    ghost use Rattle.text_pool.specs.declared.error.TextError.TheVariants as errors;

    ghost from_gives = { λ _ error. error ≡ errors.NoMemory };

    fn from(_error: NoMemory) -> TextError {
        TextError::NoMemory
    }
}

impl<T: Drop> From<AllocFailed<T>> for TextError {
    ghost use Rattle.std.specs.Prelude.{◌≡◌};
    ghost use Rattle.text_pool.specs.declared.error.TextError.TheVariants as errors;

    ghost from_gives = { λ _ error. error ≡ errors.NoMemory };

    fn from(_error: AllocFailed<T>) -> TextError {
        TextError::NoMemory
    }
}
