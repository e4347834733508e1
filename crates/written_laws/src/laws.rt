//! What the grammars of the standard say of the writer's definitions.

ghost use Rattle.std.specs.Prelude.{◌≡◌, ◌+◌, ◌<◌, ◌++◌, ◌^◌, ℕ, Bool as Choice, true, List as Listed, [], Ok, Option as Maybe, Some, length, slice_get};
ghost use Rattle.std.specs.List.{list_any};
ghost use Rattle.dwarf_types.specs.declared.abbrev.Abbrev.{Abbrev};
ghost use Rattle.dwarf_types.specs.declared.abbrev.Declaration.{Declaration};
ghost use Rattle.dwarf_types.specs.declared.graph.Graph.{Graph};
ghost use Rattle.dwarf_types.specs.declared.graph.Node.{Node};
ghost use Rattle.dwarf_types.specs.declared.graph.OutAttr.{OutAttr};
ghost use Rattle.dwarf_types.specs.declared.graph.OutUnit.{OutUnit};
ghost use Rattle.dwarf_types.specs.declared.graph.Target.{Target};
ghost use Rattle.dwarf_types.specs.declared.lines.OutLines.{OutLines};
ghost use Rattle.dwarf_types.specs.declared.parts.ExprPart.{ExprPart};
ghost use Rattle.dwarf_types.specs.declared.parts.PlainPart.{PlainPart};
ghost use Rattle.dwarf_types.specs.Abbreviations.{code_in, declarations_bytes, same_declaration};
ghost use Rattle.dwarf_types.specs.Places.{ListPlaces, Places, own_node};
ghost use Rattle.dwarf_types.specs.SectionBytes.{SectionBytes};
ghost use Rattle.dwarf_types.specs.Values.{values_bytes};
ghost use Rattle.dwarf_types.specs.Encode.{abbrev_section, info_section};
ghost use Rattle.dwarf_types.specs.Expressions.{expression_len};
ghost use Rattle.dwarf_types.specs.Layout.{lines_place, places_of, target_place, unit_start};
ghost use Rattle.dwarf_types.specs.Spelled.{AreBytes};
ghost use Rattle.dwarf_types.specs.Well.{IsWell};
ghost use Rattle.dwarf_types.specs.WellValues.{IsTarget};
ghost use Rattle.dwarf_types.specs.WholeParts.{IsWhole, IsWholeInner};
ghost use Rattle.abbrev_read.specs.Spelling.{StandsAt};
ghost use Rattle.line_laws.specs.Again.{read_again};
ghost use Rattle.line_read.specs.Program.{lines_of};
ghost use Rattle.macho_read.specs.declared.image.Image.{Image};
ghost use Rattle.reloc_table.specs.declared.relocation.Relocs.{Relocs};
ghost use Rattle.unit_tree.specs.Entry.{declared_as};
ghost use Rattle.unit_tree.specs.Spelling.{Origin, SpellsAttrs};
ghost use Rattle.unit_tree.specs.Unit.{units_of, written_units_of};
ghost use Rattle.written_laws.specs.ReadDeclarations.{AreSmall, abbrev_of, abbrevs_from};
ghost use Rattle.written_laws.specs.ReadEntries.{AllThere, AreCoded, IsPreorder, IsSpelledTree};
ghost use Rattle.written_laws.specs.LedBack.{StandsFor, entry_at, first_entry};
ghost use Rattle.written_laws.specs.ReadParts.{AreCodes, IsSaidAgain, LeadBack, SaysAgain, node_in};
ghost use Rattle.written_laws.specs.ReadUnits.{IsReadable, IsSpelledGraph, entries_read, read_units, sections_of};
ghost use Rattle.written_laws.specs.ReadValues.{AreThere, IsOrigin, fields_of, raw_attrs};

/// Declarations with codes from 1 are spelled as a table (DWARF 4, section 7.5.3), wherever it stands in
/// `__debug_abbrev` and whatever follows it there.
pub fn tables_are_spelled_as_written()
    ensures { (ds : Listed Declaration) (front more : Listed ℕ) → AreSmall ds → length ds < 2 ^ 32 →
        StandsAt (front ++ (declarations_bytes ds ++ more)) (length front) (abbrevs_from 1 ds) }
{}

/// The code of a declaration that is among them finds it.
pub fn codes_find_their_declarations()
    ensures { (ds : Listed Declaration) (d : Declaration) → list_any (λ x. same_declaration x d) ds ≡ true →
        declared_as (code_in ds d) (abbrevs_from 1 ds) ≡ Some (abbrev_of (code_in ds d) d) }
{}

/// The attributes of a node whose values name what is there are spelled each in its form (DWARF 4, section 7.5.4): a
/// reference counts from its unit or from the section, a text and a list stand at the place that is told.
pub fn attributes_are_spelled_as_written()
    ensures { (places : Places) (sections : SectionBytes) (o : Origin) (root : Choice) (next : ListPlaces) (attrs : Listed OutAttr) (place : ℕ) →
        IsOrigin places o → AreThere places sections next attrs →
        SpellsAttrs sections o root (fields_of places.unit attrs) [] (raw_attrs places next place attrs) place (values_bytes places next attrs) }
{}

/// The entries of a unit in preorder, whose values name what is there and whose codes stand in a table, are spelled as
/// a tree from a place on (DWARF 4, section 7.5.2); the tree's entries in preorder are the nodes, each with its values
/// as they are read.
pub fn entries_are_spelled_as_written()
    ensures { (places : Places) (sections : SectionBytes) (o : Origin) (table : Listed Abbrev) (unit : OutUnit) (next : ListPlaces) (place : ℕ) →
        IsPreorder unit.nodes → IsOrigin places o → AreCoded table places.unit unit.nodes → AllThere places sections next unit.nodes →
        IsSpelledTree places sections o table unit next place }
{}

/// The sections of a well graph that is within the limits of a reader spell units (DWARF 4, section 7.5; DWARF 5, section
/// 7.5), one for each of its units, whose entries in preorder are its nodes: each stands at the place that is told for it,
/// names what it names, and each reference leads to an entry.
pub fn graphs_are_spelled_as_written()
    ensures { (graph : Graph) → IsWell graph → IsReadable graph → IsSpelledGraph graph }
{}

/// So these units are read: what a reader of objects gives of the sections is the units and entries that are told (DWARF 4,
/// section 7.5; DWARF 5, section 7.5).
pub fn units_are_read_as_written()
    ensures { (graph : Graph) → IsWell graph → IsReadable graph → AreBytes (info_section graph) → AreBytes (abbrev_section graph) →
        units_of (sections_of graph) ≡ Ok (read_units graph) }
{}

/// The units of a written image are read so too, where each section offset has to lead to a table or a list that is read:
/// those of a well graph all do.
pub fn units_of_images_are_read_as_written()
    ensures { (graph : Graph) → IsWell graph → IsReadable graph → written_units_of (sections_of graph) ≡ Ok (read_units graph) }
{}

/// Each node of a graph is the entry of its number, counted over all units: with its tag, its parent, and its values as they
/// are read, at the place that is told for it.
pub fn entries_are_the_nodes()
    ensures { (graph : Graph) (u : ℕ) (unit : OutUnit) (k : ℕ) (node : Node) → slice_get graph.units u ≡ Some unit → slice_get unit.nodes k ≡ Some node →
        StandsFor graph (entries_read graph 0 0 graph.units) u unit k node }
{}

/// The entry that begins at the place of a node is that node's, counted over all units; so a reference leads back to the
/// node that it was written for.
pub fn references_lead_back()
    ensures { (graph : Graph) (target : Target) → IsTarget graph target →
        entry_at (entries_read graph 0 0 graph.units) (unit_start graph target.unit + target_place graph target) ≡ Some (first_entry graph.units target.unit + target.node) }
{}

/// The line table of a unit is read at the place that its root names, wherever the tables of other units stand (DWARF 4,
/// section 6.2.4; DWARF 5, section 6.2.4): its directories, its files, and its rows in their sequences. No relocation
/// stands in the section.
pub fn line_tables_are_read_at_their_places()
    ensures { (graph : Graph) (u : ℕ) (unit : OutUnit) (lines : OutLines) (image : Image) (relocs : Relocs) →
        IsWell graph → IsReadable graph → slice_get graph.units u ≡ Some unit → unit.lines ≡ Some lines → relocs.list ≡ [] →
        lines_of image relocs (sections_of graph) unit.version (lines_place graph u) ≡ Ok (read_again lines) }
{}

/// The parts of an expression inside an entry value that is whole are spelled as operations, and these say the parts
/// again: stretches of bytes as long as can be, and base types by the nodes that stand at their places.
pub fn expressions_say_what_was_written()
    ensures { (nodes : Listed Node) (place : ℕ → ℕ) (node : ℕ → Maybe ℕ) (version : ℕ) (inner : Listed PlainPart) →
        IsWholeInner nodes inner → AreCodes inner → LeadBack nodes place node → SaysAgain place node version inner }
{}

/// The parts of a whole expression of a unit are spelled as operations (DWARF 4 and 5, section 7.7.1), an entry value among
/// them as one with those inside of it, and these say the parts again, with base types by the nodes at their places.
pub fn whole_expressions_say_what_was_written()
    ensures { (graph : Graph) (u : ℕ) (unit : OutUnit) (expression : Listed ExprPart) → IsReadable graph → slice_get graph.units u ≡ Some unit →
        IsWhole unit.nodes expression → expression_len expression < 2 ^ 64 →
        IsSaidAgain (own_node (places_of graph u unit)) (node_in graph u unit) unit.version expression }
{}
