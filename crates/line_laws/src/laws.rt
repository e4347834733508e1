//! What the definition of the reader says of the definition of the writer.

ghost use Rattle.std.specs.Prelude.{◌≡◌, ◌+◌, ◌<◌, ◌++◌, ℕ, List as Listed, [], Ok, length};
ghost use Rattle.ds_base.specs.DwarfNumbers.{LENGTH_RESERVED};
ghost use Rattle.dwarf_types.specs.declared.lines.OutLines.{OutLines};
ghost use Rattle.dwarf_types.specs.LineTable.{line_table_bytes};
ghost use Rattle.dwarf_types.specs.SectionBytes.{SectionBytes};
ghost use Rattle.dwarf_types.specs.WellLines.{IsLineTable};
ghost use Rattle.macho_read.specs.declared.image.Image.{Image};
ghost use Rattle.reloc_table.specs.declared.relocation.Relocs.{Relocs};
ghost use Rattle.line_read.specs.Program.{lines_of};
ghost use Rattle.line_laws.specs.Again.{AreThere, read_again};

/// A table of version 4 that is written is read back whole, wherever it stands in `__debug_line`, whatever follows it
/// there, and in units of every version (DWARF 4, sections 6.2.4 and 6.2.5). Its names stand in the table itself, so it
/// is the same wherever texts are placed.
///
/// No relocation stands in the section, so each address is a plain number. A table's length has four bytes, and its
/// greatest values are reserved (DWARF 4, section 7.4).
pub fn line_tables_are_read_as_written()
    ensures { (lines : OutLines) (text : Listed ℕ → ℕ) (front more : Listed ℕ) (image : Image) (relocs : Relocs) (sections : SectionBytes) (version : ℕ) →
        IsLineTable 4 lines → length (line_table_bytes 4 text lines) < LENGTH_RESERVED + 4 → relocs.list ≡ [] →
        lines_of image relocs (record sections { line = front ++ (line_table_bytes 4 text lines ++ more) }) version (length front) ≡ Ok (read_again lines) }
{}

/// A table of version 5 that is written is read back whole in a unit of that version, wherever it stands in
/// `__debug_line`, and whatever follows it there (DWARF 5, sections 6.2.4, 6.2.4.1 and 6.2.5).
///
/// Its names stand in `__debug_line_str`, each at the place that is told for it. No relocation stands in `__debug_line`.
pub fn line_tables_of_version_5_are_read_as_written()
    ensures { (lines : OutLines) (text : Listed ℕ → ℕ) (front more : Listed ℕ) (image : Image) (relocs : Relocs) (sections : SectionBytes) →
        IsLineTable 5 lines → AreThere sections.line_str text lines → length (line_table_bytes 5 text lines) < LENGTH_RESERVED + 4 → relocs.list ≡ [] →
        lines_of image relocs (record sections { line = front ++ (line_table_bytes 5 text lines ++ more) }) 5 (length front) ≡ Ok (read_again lines) }
{}
