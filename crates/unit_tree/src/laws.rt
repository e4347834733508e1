//! What the definition of an object's units says of their spelling, and of their faults.

ghost use Rattle.std.specs.Prelude.{◌≡◌, ◌<◌, ◌≤◌, ◌+◌, ◌^◌, ℕ, List, Ok, length, [], ◌∷◌, Err};
ghost use Rattle.std.specs.List.{Contains};
ghost use Rattle.ds_base.specs.declared.fault.Fault.{Fault};
ghost use Rattle.ds_base.specs.declared.fault.Kind.TheVariants.{BadAbbrev, BadIndex, BadOffset, BadReference, BadUnit, DuplicateCode, FormOutsideProfile, LebTooWide, LimitAttributes, LimitDepth, LimitEntries, SplitUnit, Truncated, UnclosedSiblings, UnknownCode, UnknownForm, UnsupportedVersion};
ghost use Rattle.dwarf_types.specs.Spelled.{AreBytes};
ghost use Rattle.dwarf_types.specs.declared.entry.InUnit.{InUnit};
ghost use Rattle.dwarf_types.specs.declared.entry.RawUnits.{RawUnits};
ghost use Rattle.dwarf_types.specs.SectionBytes.{SectionBytes};
ghost use Rattle.unit_tree.specs.declared.profile.Profile.{Profile};
ghost use Rattle.unit_tree.specs.Alone.{unit_behind_others};
ghost use Rattle.unit_tree.specs.Entry.{Parsed};
ghost use Rattle.unit_tree.specs.Led.{AreEntriesLed};
ghost use Rattle.unit_tree.specs.Unit.{nothing, unit_at, units_of, written_units_of};
ghost use Rattle.unit_tree.specs.Spelling.{UnitTree, SpellsObject, IsSpelled, raw_units};

/// What [`read_units`](crate::read_units) reads is spelled so, and what is spelled so is read (DWARF 4,
/// section 7.5; DWARF 5, section 7.5): units, each of a header, a tree and zero bytes, and their entries in preorder.
pub fn units_are_read_as_spelled()
    ensures found { (sections : SectionBytes) (units : RawUnits) → length sections.info < 2 ^ 32 → AreBytes sections.info → AreBytes sections.abbrev_ →
        units_of sections ≡ Ok units → IsSpelled sections units }
    ensures only { (sections : SectionBytes) (trees : List UnitTree) → length sections.info < 2 ^ 32 → AreBytes sections.info → AreBytes sections.abbrev_ →
        SpellsObject sections trees → units_of sections ≡ Ok (raw_units trees) }
{}

/// The units of an image that was written are those of an object, where each section offset leads to a table or a list that is read;
/// so what is said of an object's units holds of them.
pub fn written_units_lead_somewhere()
    ensures found { (sections : SectionBytes) (units : RawUnits) → written_units_of sections ≡ Ok units → (units_of sections ≡ Ok units) × AreEntriesLed units.entries }
    ensures only { (sections : SectionBytes) (units : RawUnits) → units_of sections ≡ Ok units → AreEntriesLed units.entries → written_units_of sections ≡ Ok units }
{}

/// What is read of a unit alone is read of it behind others too, and then the numbers of its entries rise by the count of those before.
pub fn units_are_read_alone()
    ensures { (profile : Profile) (sections : SectionBytes) (number : ℕ) (before : Parsed) (place : ℕ) (y : (InUnit × Parsed) × ℕ) → unit_at profile sections number nothing place ≡ Ok y
        → length before.entries + length y.0.1.entries ≤ 2 ^ 24 → unit_at profile sections number before place ≡ Ok (unit_behind_others before y) }
{}

/// Each fault of an object's units is of one of these kinds.
pub fn kinds_of_unit_faults()
    ensures { (sections : SectionBytes) (f : Fault) →
        units_of sections ≡ Err f → Contains (
        Truncated ∷ LebTooWide ∷ UnknownForm ∷ FormOutsideProfile ∷ BadOffset ∷ BadAbbrev ∷ DuplicateCode ∷ LimitAttributes
        ∷ UnsupportedVersion ∷ BadUnit ∷ SplitUnit ∷ UnknownCode ∷ UnclosedSiblings ∷ LimitDepth ∷ LimitEntries ∷ BadReference ∷ BadIndex ∷ []
        ) f.kind }
{}
