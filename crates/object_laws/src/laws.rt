//! What an analysis keeps to, whatever the object.

ghost use Rattle.std.specs.Prelude.{◌≡◌, ◌<◌, ◌^◌, ℕ, List as Listed, Ok, length};
ghost use Rattle.std.specs.List.{All};
ghost use Rattle.dwarf_types.specs.declared.analysis.Analysis.{Analysis};
ghost use Rattle.dwarf_types.specs.LinkedGraph.{linked};
ghost use Rattle.dwarf_types.specs.LinkedUnits.{Object};
ghost use Rattle.dwarf_types.specs.Spelled.{AreBytes};
ghost use Rattle.dwarf_types.specs.Well.{IsWell};
ghost use Rattle.stab_map.specs.declared.object.MapObject.{MapObject};
ghost use Rattle.linked_laws.specs.Spellable.{IsSpellable};
ghost use Rattle.object_view.specs.Analysis.{analysis_of};
ghost use Rattle.object_laws.specs.Analysed.{IsAnalysed};

/// The analysis of an object of fewer than 2^32 bytes is spellable, whatever its bytes, the versions of its units and its part
/// of the debug map.
pub fn analyses_are_spellable()
    ensures { (bytes : Listed ℕ) (object : MapObject) (cpu : ℕ) (a : Analysis) → length bytes < 2 ^ 32 → AreBytes bytes → analysis_of bytes object cpu ≡ Ok a → IsSpellable a }
{}

/// What is linked of objects is well: of each the analysis of its bytes, with its live entries marked.
pub fn what_is_linked_is_well()
    ensures { (objects : Listed Object) → All IsAnalysed objects → IsWell (linked objects) }
{}
