//! Why a unit has no draft.

use ds_base::NoMemory;

/// Why a unit has no draft.
#[derive(Clone, Copy, Debug)]
pub enum DraftError {
    /// The unit has 2^28 bytes or more, and a base operand has four LEB digits for a place.
    Unit,
    /// Memory ran out.
    NoMemory,
}

impl From<NoMemory> for DraftError {
    ghost use Rattle.std.specs.Prelude.{◌≡◌};
    ghost use Rattle.unit_draft.specs.declared.error.DraftError.TheVariants as errors;

    ghost from_gives = { λ _ error. error ≡ errors.NoMemory };

    fn from(_error: NoMemory) -> DraftError {
        DraftError::NoMemory
    }
}
