//! What an expression's definition says of its spelling.

ghost use Rattle.std.specs.Prelude.{◌≡◌, ℕ, List as Listed, Ok, [], ◌∷◌, Err};
ghost use Rattle.std.specs.List.{Contains};
ghost use Rattle.ds_base.specs.declared.fault.Fault.{Fault};
ghost use Rattle.ds_base.specs.declared.fault.Kind.TheVariants.{LebTooWide, OpOutsideProfile, Truncated, UnknownOp};
ghost use Rattle.ds_base.specs.declared.fault.Part.{Part};
ghost use Rattle.dwarf_types.specs.Spelled.{AreBytes};
ghost use Rattle.dwarf_types.specs.declared.expr.Op.{Op};
ghost use Rattle.expr_walk.specs.Reading.{walk_of};
ghost use Rattle.expr_walk.specs.Spelling.{SpellsExpression};

/// What [`walk`](crate::walk) reads is spelled so, and what is spelled so is read (DWARF 4 and 5, section 7.7.1).
pub fn expressions_are_read_as_spelled()
    ensures found { (bytes : Listed ℕ) (part : Part) (first version : ℕ) (ops : Listed Op) → AreBytes bytes → walk_of bytes part first version ≡ Ok ops → SpellsExpression version bytes ops }
    ensures only { (bytes : Listed ℕ) (part : Part) (first version : ℕ) (ops : Listed Op) → AreBytes bytes → SpellsExpression version bytes ops → walk_of bytes part first version ≡ Ok ops }
{}

/// Each fault of an expression is of one of these kinds.
pub fn kinds_of_walk_faults()
    ensures { (bytes : Listed ℕ) (part : Part) (first version : ℕ) (f : Fault) →
        walk_of bytes part first version ≡ Err f → Contains (Truncated ∷ LebTooWide ∷ UnknownOp ∷ OpOutsideProfile ∷ []) f.kind }
{}
