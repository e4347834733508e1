//! What the definition of a line table says of one.

ghost use Rattle.std.specs.Prelude.{◌≡◌, ◌<◌, ℕ, List as Listed, [], ◌∷◌, Ok, Err};
ghost use Rattle.std.specs.List.{Contains};
ghost use Rattle.ds_base.specs.declared.fault.Fault.{Fault};
ghost use Rattle.ds_base.specs.declared.fault.Kind.TheVariants.{Truncated, LebTooWide, BadOffset, LineVersion, BadLineHeader, VliwLine, BadLineOp, LineBackwards, BadEntryFormat};
ghost use Rattle.ds_base.specs.Spot.{Spot};
ghost use Rattle.dwarf_types.specs.declared.lines.FileName.{FileName};
ghost use Rattle.dwarf_types.specs.declared.lines.RawLines.{RawLines};
ghost use Rattle.dwarf_types.specs.SectionBytes.{SectionBytes};
ghost use Rattle.macho_read.specs.declared.image.Image.{Image};
ghost use Rattle.reloc_table.specs.declared.relocation.Relocs.{Relocs};
ghost use Rattle.line_read.specs.declared.header.LineHeader.{LineHeader};
ghost use Rattle.line_read.specs.declared.names.HeaderEnd.{HeaderEnd};
ghost use Rattle.line_read.specs.Header.{line_at, version_of};
ghost use Rattle.line_read.specs.Marked.{AreListed};
ghost use Rattle.line_read.specs.Names.{dir_at, file_at};
ghost use Rattle.line_read.specs.Operation.{op_at};
ghost use Rattle.line_read.specs.Program.{lines_of};
ghost use Rattle.line_read.specs.Tables.{dirs_at, files_at};
ghost use Rattle.line_read.specs.Whole.{HasTable, IsTable, IsWhole};

/// The operations of a program follow each other without a gap from its first byte to the table's end, or to the first that
/// is wrong. The table is what they mean under the header, the directories and the files that stand before it; where it
/// is read, these are there.
pub fn operations_fill_the_program()
    ensures program { (image : Image) (relocs : Relocs) (sections : SectionBytes) (version offset : ℕ) (program : Spot) (header : LineHeader) (dirs : Listed (Listed ℕ)) (files : Listed FileName) →
        IsTable sections version (line_at sections.line offset) program header dirs files
        → IsWhole (op_at header image relocs) program header dirs files (lines_of image relocs sections version offset) }
    ensures table { (image : Image) (relocs : Relocs) (sections : SectionBytes) (version offset : ℕ) (lines : RawLines) →
        lines_of image relocs sections version offset ≡ Ok lines → HasTable sections version (line_at sections.line offset) }
{}

/// The directories and the files of a table before version 5 follow each other up to the empty name, or to the first that
/// is wrong.
pub fn names_end_with_the_empty_one()
    ensures dirs { (header : HeaderEnd) (sections : SectionBytes) (version : ℕ) (s : Spot) → version < 5 → AreListed (dir_at header) s (dirs_at header sections version s) }
    ensures files { (header : HeaderEnd) (sections : SectionBytes) (version : ℕ) (s : Spot) → version < 5 → AreListed (file_at header) s (files_at header sections version s) }
{}

/// Each fault of a table is of one of these kinds.
pub fn kinds_of_line_faults()
    ensures { (image : Image) (relocs : Relocs) (sections : SectionBytes) (version offset : ℕ) (f : Fault) →
        lines_of image relocs sections version offset ≡ Err f → Contains (Truncated ∷ LebTooWide ∷ BadOffset ∷ LineVersion ∷ BadLineHeader ∷ VliwLine ∷ BadLineOp ∷ LineBackwards ∷ BadEntryFormat ∷ []) f.kind }
{}

/// Each fault where a table's version alone is told is of one of these kinds.
pub fn kinds_of_version_faults()
    ensures { (sections : SectionBytes) (version offset : ℕ) (f : Fault) →
        version_of sections version offset ≡ Err f → Contains (Truncated ∷ BadLineHeader ∷ LineVersion ∷ []) f.kind }
{}
