//! What a table's definition says of its spelling, and of its faults.

ghost use Rattle.std.specs.Prelude.{◌≡◌, ◌<◌, ℕ, List as Listed, Ok, length, [], ◌∷◌, Err};
ghost use Rattle.std.specs.List.{Contains};
ghost use Rattle.ds_base.specs.declared.fault.Fault.{Fault};
ghost use Rattle.ds_base.specs.declared.fault.Kind.TheVariants.{BadAbbrev, DuplicateCode, LebTooWide, LimitAttributes, Truncated};
ghost use Rattle.dwarf_types.specs.Spelled.{AreBytes};
ghost use Rattle.dwarf_types.specs.declared.abbrev.Abbrev.{Abbrev};
ghost use Rattle.abbrev_read.specs.Reading.{table_at};
ghost use Rattle.abbrev_read.specs.Spelling.{StandsAt};

/// What [`read_table`](crate::read_table) reads is spelled so, and what is spelled so is read
/// (DWARF 4, section 7.5.3).
pub fn tables_are_read_as_spelled()
    ensures found { (bytes : Listed ℕ) (offset : ℕ) (table : Listed Abbrev) → offset < length bytes → AreBytes bytes → table_at bytes offset ≡ Ok table → StandsAt bytes offset table }
    ensures only { (bytes : Listed ℕ) (offset : ℕ) (table : Listed Abbrev) → offset < length bytes → AreBytes bytes → StandsAt bytes offset table → table_at bytes offset ≡ Ok table }
{}

/// Each fault of a table is of one of these kinds.
pub fn kinds_of_table_faults()
    ensures { (bytes : Listed ℕ) (offset : ℕ) (f : Fault) →
        table_at bytes offset ≡ Err f → Contains (Truncated ∷ LebTooWide ∷ BadAbbrev ∷ DuplicateCode ∷ LimitAttributes ∷ []) f.kind }
{}
