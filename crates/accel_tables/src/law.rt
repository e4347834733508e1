//! The law above what is found.

ghost use Rattle.std.specs.Prelude.{◌≡◌, ℕ, List as Listed, [], ◌∷◌, Err};
ghost use Rattle.std.specs.List.{Contains};
ghost use Rattle.ds_base.specs.declared.fault.Fault.{Fault};
ghost use Rattle.ds_base.specs.declared.fault.Kind.TheVariants.{BadTable, Truncated};
ghost use Rattle.accel_tables.specs.Found.{found};

/// Each fault of a look-up is of one of these kinds.
pub fn kinds_of_table_faults()
    ensures { (table : Listed ℕ) (strings : Listed ℕ) (name : Listed ℕ) (f : Fault) → found table strings name ≡ Err f → Contains (Truncated ∷ BadTable ∷ []) f.kind }
{}
