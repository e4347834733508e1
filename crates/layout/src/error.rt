//! Why a graph has no layout.

use ds_base::{NoMemory, Part};

/// Why a graph has no layout.
#[derive(Clone, Copy, Debug)]
pub enum LayoutError {
    /// The unit of this number, counted from 0, has 2^28 bytes or more.
    Unit { unit: u32 },
    /// The section has 2^32 - 1 bytes or more.
    Section { part: Part },
    /// Memory ran out.
    NoMemory,
}

impl From<NoMemory> for LayoutError {
    ghost use Rattle.std.specs.Prelude.{◌≡◌};
    ghost use Rattle.layout.specs.declared.error.LayoutError.TheVariants as errors;

    ghost from_gives = { λ _ error. error ≡ errors.NoMemory };

    fn from(_error: NoMemory) -> LayoutError {
        LayoutError::NoMemory
    }
}
