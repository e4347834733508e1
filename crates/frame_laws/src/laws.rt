//! What the grammar of the section of frames says of the definitions of its reader and its writer.

ghost use Rattle.std.specs.Prelude.{◌≡◌, ◌<◌, ℕ, List as Listed, [], Ok, length};
ghost use Rattle.std.specs.List.{All};
ghost use Rattle.ds_base.specs.DwarfNumbers.{LENGTH_RESERVED};
ghost use Rattle.dwarf_types.specs.declared.frames.OutFrame.{OutFrame};
ghost use Rattle.dwarf_types.specs.declared.frames.RawFrame.{RawFrame};
ghost use Rattle.dwarf_types.specs.Frames.{frames_bytes};
ghost use Rattle.dwarf_types.specs.Spelled.{AreBytes};
ghost use Rattle.dwarf_types.specs.WellLines.{IsFrame};
ghost use Rattle.macho_read.specs.declared.image.Image.{Image};
ghost use Rattle.reloc_table.specs.declared.relocation.Relocs.{Relocs};
ghost use Rattle.frame_table.specs.Frames.{frames_of};
ghost use Rattle.frame_laws.specs.Again.{read_frames};
ghost use Rattle.frame_laws.specs.Spelling.{SpellsFrames};

/// What is read of a section of frames is spelled so, and what is spelled so is read: the frames of its FDEs, in their
/// order, each with the content of the CIE that it names, which may stand before it or behind it (DWARF 4, section 6.4.1).
/// No relocation stands in the section.
pub fn frames_are_read_as_spelled()
    ensures found { (image : Image) (relocs : Relocs) (bytes : Listed ℕ) (frames : Listed RawFrame) → relocs.list ≡ [] → AreBytes bytes → frames_of image relocs bytes ≡ Ok frames → SpellsFrames bytes frames }
    ensures only { (image : Image) (relocs : Relocs) (bytes : Listed ℕ) (frames : Listed RawFrame) → relocs.list ≡ [] → SpellsFrames bytes frames → frames_of image relocs bytes ≡ Ok frames }
{}

/// The section of frames that is written is read as these frames, in their order. The greatest lengths of four bytes are
/// reserved (DWARF 4, section 7.4).
pub fn frames_are_read_as_written()
    ensures { (frames : Listed OutFrame) (image : Image) (relocs : Relocs) → All IsFrame frames → length (frames_bytes frames) < LENGTH_RESERVED → relocs.list ≡ [] →
        frames_of image relocs (frames_bytes frames) ≡ Ok (read_frames frames) }
{}
