//! What the definition of frames says of a section.

ghost use Rattle.std.specs.Prelude.{◌≡◌, ℕ, List as Listed, [], ◌∷◌, map, not, Some, None, Ok, Err};
ghost use Rattle.std.specs.List.{Contains, filter};
ghost use Rattle.ds_base.specs.declared.fault.Fault.{Fault};
ghost use Rattle.ds_base.specs.declared.fault.Kind.TheVariants.{Truncated, BadFrame};
ghost use Rattle.dwarf_types.specs.declared.frames.RawFrame.{RawFrame};
ghost use Rattle.macho_read.specs.declared.image.Image.{Image};
ghost use Rattle.reloc_table.specs.declared.relocation.Relocs.{Relocs};
ghost use Rattle.frame_table.specs.Entry.{is_cie};
ghost use Rattle.frame_table.specs.Frames.{entries_of, Fill, frame_of, frames_of};

/// Entries follow each other without a gap from the section's first byte to its end, or to the first whose length or id is
/// wrong. A section that is read is read to its end.
pub fn entries_fill_the_section()
    ensures entries { (bytes : Listed ℕ) → Fill bytes 0 (entries_of bytes).entries (entries_of bytes).stop }
    ensures whole { (image : Image) (relocs : Relocs) (bytes : Listed ℕ) (frames : Listed RawFrame) →
        frames_of image relocs bytes ≡ Ok frames → (entries_of bytes).stop ≡ None }
{}

/// Where a section is read, its frames are those of its FDEs, one each, in their order.
pub fn each_fde_has_its_frame()
    ensures { (image : Image) (relocs : Relocs) (bytes : Listed ℕ) (frames : Listed RawFrame) →
        frames_of image relocs bytes ≡ Ok frames → map Some frames ≡ map (frame_of image relocs bytes (entries_of bytes).entries) (filter (λ e. not (is_cie e)) (entries_of bytes).entries) }
{}

/// Each fault of a section is of one of these kinds.
pub fn kinds_of_frame_faults()
    ensures { (image : Image) (relocs : Relocs) (bytes : Listed ℕ) (f : Fault) →
        frames_of image relocs bytes ≡ Err f → Contains (Truncated ∷ BadFrame ∷ []) f.kind }
{}
