//! Why a shape was not made.

use ds_base::NoMemory;
use std::alloc::{AllocError, AllocFailed};

/// Why a shape was not made.
#[derive(Clone, Copy, Debug)]
pub enum ShapeError {
    /// It has 2^32 units or more, and references tell units by 32 bits.
    Units,
    /// Memory ran out.
    NoMemory,
}

impl From<NoMemory> for ShapeError {
    ghost use Rattle.std.specs.Prelude.{◌≡◌};
    ghost use Rattle.link_graph.specs.declared.shape_error.ShapeError.TheVariants as errors;

    ghost from_gives = { λ _ error. error ≡ errors.NoMemory };

    fn from(_error: NoMemory) -> ShapeError {
        ShapeError::NoMemory
    }
}

impl<T: Drop> From<AllocFailed<T>> for ShapeError {
    ghost use Rattle.std.specs.Prelude.{◌≡◌};
    ghost use Rattle.link_graph.specs.declared.shape_error.ShapeError.TheVariants as errors;

    ghost from_gives = { λ _ error. error ≡ errors.NoMemory };

    fn from(_error: AllocFailed<T>) -> ShapeError {
        ShapeError::NoMemory
    }
}

impl From<AllocError> for ShapeError {
    ghost use Rattle.std.specs.Prelude.{◌≡◌};
    ghost use Rattle.link_graph.specs.declared.shape_error.ShapeError.TheVariants as errors;

    ghost from_gives = { λ _ error. error ≡ errors.NoMemory };

    fn from(_error: AllocError) -> ShapeError {
        ShapeError::NoMemory
    }
}
