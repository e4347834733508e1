//! The law of which kinds faults are.

ghost use Rattle.std.specs.Prelude.{◌≡◌, ℕ, List as Listed, [], ◌∷◌, Err};
ghost use Rattle.std.specs.List.{Contains};
ghost use Rattle.ds_base.specs.declared.fault.Fault.{Fault};
ghost use Rattle.ds_base.specs.declared.fault.Kind.TheVariants.{RelocKind, RelocOverlap, RelocPlace, RelocSymbol, Truncated};
ghost use Rattle.macho_read.specs.declared.image.Image.{Image};
ghost use Rattle.macho_read.specs.declared.image.Section.{Section};
ghost use Rattle.reloc_table.specs.Table.{relocs_of};

/// Each fault of a section's relocations is of one of these kinds.
pub fn kinds_of_reloc_faults()
    ensures { (bytes : Listed ℕ) (image : Image) (section : Section) (f : Fault) →
        relocs_of bytes image section ≡ Err f → Contains (Truncated ∷ RelocKind ∷ RelocPlace ∷ RelocSymbol ∷ RelocOverlap ∷ []) f.kind }
{}
