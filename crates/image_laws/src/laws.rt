//! What the records of Mach-O files say of the definition of an image file.

ghost use Rattle.std.specs.Prelude.{◌≡◌, ◌<◌, ◌^◌, ℕ, List as Listed, [], Ok, length};
ghost use Rattle.dwarf_types.specs.declared.graph.Graph.{Graph};
ghost use Rattle.dwarf_types.specs.Encode.{encode};
ghost use Rattle.dwarf_types.specs.Spelled.{AreBytes};
ghost use Rattle.dsym_write.specs.Bundle.{file_of, image_file};
ghost use Rattle.macho_read.specs.declared.image.Image.{Image};
ghost use Rattle.macho_read.specs.declared.kind.Role.TheVariants as roles;
ghost use Rattle.macho_read.specs.Image.{image_of};
ghost use Rattle.macho_read.specs.ImageSpelling.{SpellsFile, image_kept};
ghost use Rattle.macho_read.specs.Kind.{kind_of};
ghost use Rattle.reloc_table.specs.declared.sections.Compressed.TheVariants.{Ignored};
ghost use Rattle.reloc_table.specs.Parts.{all_tried, sections_in};
ghost use Rattle.written_laws.specs.ReadUnits.{sections_of};
ghost use Rattle.image_laws.specs.Fitting.{FitsRecords};

/// A program that was read from a file, and has no segment `__DWARF` of its own, fits the records of one.
pub fn programs_that_were_read_fit()
    ensures { (bytes : Listed ℕ) (program : Image) → AreBytes bytes → image_of bytes ≡ Ok program → kind_of program roles.Program ≡ Ok tt → FitsRecords program }
{}

/// The image file of a graph is spelled by the records of a Mach-O file (mach-o/loader.h, mach-o/nlist.h): a header, the
/// commands of the program and that of segment `__DWARF`, and the program's symbols with their names. It has fewer than
/// 2^32 bytes, and the program's numbers fit their records.
pub fn image_files_are_spelled()
    ensures { (program : Image) (graph : Graph) → FitsRecords program → length (image_file program graph) < 2 ^ 32 →
        SpellsFile (image_file program graph) (file_of program (encode graph)) }
{}

/// So the file of a program that has no segment `__DWARF` of its own is read as the image of a bundle. Its debug sections
/// lie in the file where the section table says, and each has the bytes that the graph has in that section, none of them
/// those of another.
pub fn image_files_give_their_sections()
    ensures image { (program : Image) (graph : Graph) → FitsRecords program → length (image_file program graph) < 2 ^ 32 →
        image_of (image_file program graph) ≡ Ok (image_kept (file_of program (encode graph))) }
    ensures bundle { (program : Image) (graph : Graph) → FitsRecords program → kind_of (image_kept (file_of program (encode graph))) roles.Bundle ≡ Ok tt }
    ensures tried { (program : Image) (graph : Graph) → FitsRecords program → kind_of program roles.Program ≡ Ok tt → length (image_file program graph) < 2 ^ 32 →
        all_tried Ignored (image_file program graph) [] (image_kept (file_of program (encode graph))).sections ≡ Ok tt }
    ensures sections { (program : Image) (graph : Graph) → FitsRecords program → kind_of program roles.Program ≡ Ok tt → length (image_file program graph) < 2 ^ 32 →
        sections_in (image_file program graph) (image_kept (file_of program (encode graph))).sections ≡ sections_of graph }
{}
