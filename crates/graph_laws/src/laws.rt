//! The written sections and images of a graph tell it.

ghost use Rattle.std.specs.Prelude.{◌≡◌, ◌<◌, ◌^◌, ℕ, List as Listed, [], Ok, length};
ghost use Rattle.ds_base.specs.DwarfNumbers.{LENGTH_RESERVED};
ghost use Rattle.dwarf_types.specs.declared.graph.Graph.{Graph};
ghost use Rattle.dwarf_types.specs.Encode.{frame_section};
ghost use Rattle.dwarf_types.specs.Spelled.{AreBytes};
ghost use Rattle.dwarf_types.specs.Well.{IsWell};
ghost use Rattle.dsym_write.specs.Bundle.{image_file};
ghost use Rattle.image_laws.specs.Fitting.{FitsRecords};
ghost use Rattle.macho_read.specs.declared.image.Image.{Image};
ghost use Rattle.macho_read.specs.declared.kind.Role.TheVariants as roles;
ghost use Rattle.macho_read.specs.Image.{image_of};
ghost use Rattle.macho_read.specs.Kind.{kind_of};
ghost use Rattle.reloc_table.specs.declared.relocation.Relocs.{Relocs};
ghost use Rattle.written_laws.specs.ReadUnits.{IsReadable, sections_of};
ghost use Rattle.graph_laws.specs.Telling.{TellsGraph, TellsImage};

/// The sections of a well graph within the limits of readers tell the graph: each of its units, each node with its
/// attributes and the node above it, what each value names at its place, and each frame.
pub fn sections_tell_their_graph()
    ensures { (graph : Graph) (image : Image) (relocs : Relocs) → IsWell graph → IsReadable graph → length (frame_section graph) < LENGTH_RESERVED → relocs.list ≡ [] →
        TellsGraph image relocs (sections_of graph) graph }
{}

/// The image that is written of a well graph within the limits of readers, and of a program that has no segment `__DWARF`
/// of its own and whose numbers fit their records, is the image of a bundle, whose debug sections lie in it and tell the
/// graph. It has fewer than 2^32 bytes.
pub fn images_tell_their_graph()
    ensures { (program : Image) (graph : Graph) → FitsRecords program → kind_of program roles.Program ≡ Ok tt → IsWell graph → IsReadable graph → length (image_file program graph) < 2 ^ 32 →
        TellsImage (image_file program graph) graph }
{}

/// So the image of each bundle tells its graph: the program was read from a file, and has no segment `__DWARF` of its own.
pub fn bundles_tell_their_graph()
    ensures { (file : Listed ℕ) (program : Image) (graph : Graph) → AreBytes file → image_of file ≡ Ok program → kind_of program roles.Program ≡ Ok tt → IsWell graph → IsReadable graph → length (image_file program graph) < 2 ^ 32 →
        TellsImage (image_file program graph) graph }
{}
