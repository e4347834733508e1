//! What a value's definition says of its spelling.

ghost use Rattle.std.specs.Prelude.{◌≡◌, ◌++◌, ℕ, List as Listed, Ok, [], ◌∷◌, Err};
ghost use Rattle.std.specs.List.{Contains};
ghost use Rattle.ds_base.specs.declared.fault.Fault.{Fault};
ghost use Rattle.ds_base.specs.declared.fault.Kind.TheVariants.{BadOffset, FormOutsideProfile, LebTooWide, Truncated, UnknownForm};
ghost use Rattle.ds_base.specs.Spot.{Spot, IsSpot, rest};
ghost use Rattle.dwarf_types.specs.Spelled.{AreBytes};
ghost use Rattle.dwarf_types.specs.declared.abbrev.Field.{Field};
ghost use Rattle.dwarf_types.specs.SectionBytes.{SectionBytes};
ghost use Rattle.dwarf_types.specs.declared.value.Value.{Value};
ghost use Rattle.form_value.specs.Reading.{value_at};
ghost use Rattle.form_value.specs.Spelling.{SpellsValue, IsSpelled, IsRead};

/// What [`read_value`](crate::read_value) reads is spelled so, and what is spelled so is read,
/// whatever follows it (DWARF 5, section 7.5.5).
pub fn values_are_read_as_spelled()
    ensures found { (field : Field) (version : ℕ) (sections : SectionBytes) (s t : Spot) (value : Value) → IsSpot s → AreBytes (rest s) →
        value_at field version sections s ≡ Ok (value, t) → IsSpelled field version sections s value t }
    ensures only { (field : Field) (version : ℕ) (sections : SectionBytes) (s : Spot) (bytes more : Listed ℕ) (value : Value) → IsSpot s → AreBytes (rest s) →
        SpellsValue field version sections bytes value → rest s ≡ bytes ++ more → IsRead field version sections s value more }
{}

/// Each fault of a value is of one of these kinds.
pub fn kinds_of_value_faults()
    ensures { (field : Field) (version : ℕ) (sections : SectionBytes) (s : Spot) (f : Fault) →
        value_at field version sections s ≡ Err f → Contains (Truncated ∷ LebTooWide ∷ UnknownForm ∷ FormOutsideProfile ∷ BadOffset ∷ []) f.kind }
{}
