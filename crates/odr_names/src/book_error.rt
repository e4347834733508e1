//! Why a book was not made.

use ds_base::NoMemory;

/// Why a book was not made.
#[derive(Clone, Copy, Debug)]
pub enum BookError {
    /// 2^25 entries or more are pooled.
    Pooled,
    /// Memory ran out.
    NoMemory,
}

impl From<NoMemory> for BookError {
    ghost use Rattle.std.specs.Prelude.{◌≡◌};
    ghost use Rattle.odr_names.specs.declared.book_error.BookError.TheVariants as errors;

    ghost from_gives = { λ _ error. error ≡ errors.NoMemory };

    fn from(_error: NoMemory) -> BookError {
        BookError::NoMemory
    }
}
