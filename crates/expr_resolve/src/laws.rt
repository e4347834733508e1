//! What the definition of an understood expression says of its faults.

ghost use Rattle.std.specs.Prelude.{ℕ, List as Listed, ◌≡◌, [], ◌∷◌, Err};
ghost use Rattle.std.specs.List.{Contains};
ghost use Rattle.ds_base.specs.declared.fault.Fault.{Fault};
ghost use Rattle.ds_base.specs.declared.fault.Kind.TheVariants.{BadIndex, BadOperandType, BranchOverRewrite, LebTooWide, OpOutsideProfile, Truncated, UnknownOp};
ghost use Rattle.expr_resolve.specs.Context.{Context, Names};
ghost use Rattle.expr_resolve.specs.Expressions.{expression_of, stored_expression_of};

/// Each fault of an expression is of one of these kinds.
pub fn kinds_of_expression_faults()
    ensures { (s : Context) (bytes : Listed ℕ) (first : ℕ) (f : Fault) →
        expression_of s bytes first ≡ Err f → Contains (Truncated ∷ LebTooWide ∷ UnknownOp ∷ OpOutsideProfile ∷ BadOperandType ∷ BadIndex ∷ BranchOverRewrite ∷ []) f.kind }
{}

/// The same of an expression of which nothing moves.
pub fn kinds_of_stored_expression_faults()
    ensures { (s : Names) (bytes : Listed ℕ) (first : ℕ) (f : Fault) →
        stored_expression_of s bytes first ≡ Err f → Contains (Truncated ∷ LebTooWide ∷ UnknownOp ∷ OpOutsideProfile ∷ BadOperandType ∷ BadIndex ∷ BranchOverRewrite ∷ []) f.kind }
{}
