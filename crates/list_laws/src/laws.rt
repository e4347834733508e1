//! What the grammar of lists says of the definitions of their readers and writers.

ghost use Rattle.std.specs.Prelude.{◌≡◌, ◌⊎◌, ◌++◌, ℕ, List as Listed, [], Ok, length};
ghost use Rattle.std.specs.List.{All};
ghost use Rattle.dwarf_types.specs.declared.address.Addr.{Addr};
ghost use Rattle.dwarf_types.specs.declared.address.Addr.TheVariants.{Fixed};
ghost use Rattle.dwarf_types.specs.declared.address.Span.{Span};
ghost use Rattle.dwarf_types.specs.declared.graph.Graph.{Graph};
ghost use Rattle.dwarf_types.specs.declared.graph.Node.{Node};
ghost use Rattle.dwarf_types.specs.declared.graph.OutLocation.{OutLocation};
ghost use Rattle.dwarf_types.specs.declared.graph.OutUnit.{OutUnit};
ghost use Rattle.dwarf_types.specs.declared.graph.OutValue.TheVariants as values;
ghost use Rattle.dwarf_types.specs.declared.lists.RawLocation.{RawLocation};
ghost use Rattle.dwarf_types.specs.declared.lists.RawSpan.{RawSpan};
ghost use Rattle.dwarf_types.specs.Lists.{location_list_bytes, range_list_bytes};
ghost use Rattle.dwarf_types.specs.SectionBytes.{SectionBytes, location_bytes, range_bytes};
ghost use Rattle.dwarf_types.specs.Spelled.{AreBytes};
ghost use Rattle.dwarf_types.specs.Well.{IsWell};
ghost use Rattle.dwarf_types.specs.WellValues.{IsSpan};
ghost use Rattle.macho_read.specs.declared.image.Image.{Image};
ghost use Rattle.reloc_table.specs.declared.relocation.Relocs.{Relocs};
ghost use Rattle.loc_lists.specs.declared.locations.LocationItem.{LocationItem};
ghost use Rattle.loc_lists.specs.Reading.{location_context, location_items_of, locations_of};
ghost use Rattle.range_lists.specs.Reading.{range_context, ranges_of};
ghost use Rattle.written_laws.specs.ReadUnits.{IsReadable, sections_of};
ghost use Rattle.list_laws.specs.Again.{Holds, IsShort, locations_place, node_at, ranges_place, read_items, read_locations, read_spans};
ghost use Rattle.list_laws.specs.Spelling.{FollowsItem, FollowsLocation, FollowsRange, StandsAt};

/// What is read of a range list stands at its place as the standard spells it, and what is spelled so is read (DWARF 4,
/// section 2.17.3; DWARF 5, section 7.25), where no relocation stands in the section.
pub fn ranges_are_read_as_spelled()
    ensures found { (sections : SectionBytes) (relocs : Relocs) (image : Image) (offset version : ℕ) (base : Addr) (addresses : Relocs) (addr_base : ℕ) (given : Listed RawSpan) →
        relocs.list ≡ [] → AreBytes (range_bytes sections version) → ranges_of sections relocs image offset version base addresses addr_base ≡ Ok given →
        StandsAt (range_context sections relocs image version addresses addr_base) FollowsRange base (range_bytes sections version) offset given }
    ensures only { (sections : SectionBytes) (relocs : Relocs) (image : Image) (offset version : ℕ) (base : Addr) (addresses : Relocs) (addr_base : ℕ) (given : Listed RawSpan) →
        relocs.list ≡ [] → AreBytes (range_bytes sections version) → StandsAt (range_context sections relocs image version addresses addr_base) FollowsRange base (range_bytes sections version) offset given →
        ranges_of sections relocs image offset version base addresses addr_base ≡ Ok given }
{}

/// What is read of a location list stands at its place as the standard spells it, each item with its expression, and what
/// is spelled so is read (DWARF 4, section 2.6.2; DWARF 5, section 7.7.3), where no relocation stands in the section. A
/// default location has the span of all numbers.
pub fn locations_are_read_as_spelled()
    ensures found { (sections : SectionBytes) (relocs : Relocs) (image : Image) (offset version : ℕ) (base : Addr) (addresses : Relocs) (addr_base : ℕ) (given : Listed RawLocation) →
        relocs.list ≡ [] → AreBytes (location_bytes sections version) → locations_of sections relocs image offset version base addresses addr_base ≡ Ok given →
        StandsAt (location_context sections relocs image version addresses addr_base) (FollowsLocation version) base (location_bytes sections version) offset given }
    ensures only { (sections : SectionBytes) (relocs : Relocs) (image : Image) (offset version : ℕ) (base : Addr) (addresses : Relocs) (addr_base : ℕ) (given : Listed RawLocation) →
        relocs.list ≡ [] → AreBytes (location_bytes sections version) → StandsAt (location_context sections relocs image version addresses addr_base) (FollowsLocation version) base (location_bytes sections version) offset given →
        locations_of sections relocs image offset version base addresses addr_base ≡ Ok given }
{}

/// The same, where a default location is told apart from a span of all numbers.
pub fn location_items_are_read_as_spelled()
    ensures found { (sections : SectionBytes) (relocs : Relocs) (image : Image) (offset version : ℕ) (base : Addr) (addresses : Relocs) (addr_base : ℕ) (given : Listed LocationItem) →
        relocs.list ≡ [] → AreBytes (location_bytes sections version) → location_items_of sections relocs image offset version base addresses addr_base ≡ Ok given →
        StandsAt (location_context sections relocs image version addresses addr_base) (FollowsItem version) base (location_bytes sections version) offset given }
    ensures only { (sections : SectionBytes) (relocs : Relocs) (image : Image) (offset version : ℕ) (base : Addr) (addresses : Relocs) (addr_base : ℕ) (given : Listed LocationItem) →
        relocs.list ≡ [] → AreBytes (location_bytes sections version) → StandsAt (location_context sections relocs image version addresses addr_base) (FollowsItem version) base (location_bytes sections version) offset given →
        location_items_of sections relocs image offset version base addresses addr_base ≡ Ok given }
{}

/// A range list that is written is read again, wherever it stands in its section and whatever follows it there, in a unit
/// whose addresses count from 0.
pub fn ranges_are_read_as_written()
    ensures { (sections : SectionBytes) (relocs : Relocs) (image : Image) (version : ℕ) (addresses : Relocs) (addr_base : ℕ) (spans : Listed Span) (front more : Listed ℕ) →
        relocs.list ≡ [] → All IsSpan spans → AreBytes (range_bytes sections version) → range_bytes sections version ≡ front ++ (range_list_bytes version spans ++ more) →
        ranges_of sections relocs image (length front) version (Fixed 0) addresses addr_base ≡ Ok (read_spans spans) }
{}

/// A location list that is written is read again, wherever it stands in its section and whatever follows it there: its
/// spans, and their expressions as bytes with their places.
pub fn locations_are_read_as_written()
    ensures items { (sections : SectionBytes) (relocs : Relocs) (image : Image) (version : ℕ) (addresses : Relocs) (addr_base : ℕ) (node : ℕ → ℕ) (list : Listed OutLocation) (front more : Listed ℕ) →
        relocs.list ≡ [] → All (IsShort version) list → (version ≡ 4) ⊎ (version ≡ 5) → AreBytes (location_bytes sections version) →
        location_bytes sections version ≡ front ++ (location_list_bytes version node list ++ more) →
        location_items_of sections relocs image (length front) version (Fixed 0) addresses addr_base ≡ Ok (read_items version node (length front) list) }
    ensures locations { (sections : SectionBytes) (relocs : Relocs) (image : Image) (version : ℕ) (addresses : Relocs) (addr_base : ℕ) (node : ℕ → ℕ) (list : Listed OutLocation) (front more : Listed ℕ) →
        relocs.list ≡ [] → All (IsShort version) list → (version ≡ 4) ⊎ (version ≡ 5) → AreBytes (location_bytes sections version) →
        location_bytes sections version ≡ front ++ (location_list_bytes version node list ++ more) →
        locations_of sections relocs image (length front) version (Fixed 0) addresses addr_base ≡ Ok (read_locations version node (length front) list) }
{}

/// The range list of each value of a well graph is read at the place that the value names, wherever the lists of other
/// values and units stand.
pub fn ranges_at_their_places()
    ensures { (graph : Graph) (u : ℕ) (unit : OutUnit) (k : ℕ) (node : Node) (i : ℕ) (spans : Listed Span) (image : Image) (relocs addresses : Relocs) (addr_base : ℕ) →
        IsWell graph → Holds graph u unit k node i (values.Ranges spans) → relocs.list ≡ [] →
        ranges_of (sections_of graph) relocs image (ranges_place graph u unit k node i) unit.version (Fixed 0) addresses addr_base ≡ Ok (read_spans spans) }
{}

/// The location list of each value of a well graph whose sections aren't too long is read at the place that the value
/// names.
pub fn locations_at_their_places()
    ensures items { (graph : Graph) (u : ℕ) (unit : OutUnit) (k : ℕ) (node : Node) (i : ℕ) (list : Listed OutLocation) (image : Image) (relocs addresses : Relocs) (addr_base : ℕ) →
        IsWell graph → IsReadable graph → Holds graph u unit k node i (values.Locations list) → relocs.list ≡ [] →
        location_items_of (sections_of graph) relocs image (locations_place graph u unit k node i) unit.version (Fixed 0) addresses addr_base ≡ Ok (read_items unit.version (node_at graph u unit) (locations_place graph u unit k node i) list) }
    ensures locations { (graph : Graph) (u : ℕ) (unit : OutUnit) (k : ℕ) (node : Node) (i : ℕ) (list : Listed OutLocation) (image : Image) (relocs addresses : Relocs) (addr_base : ℕ) →
        IsWell graph → IsReadable graph → Holds graph u unit k node i (values.Locations list) → relocs.list ≡ [] →
        locations_of (sections_of graph) relocs image (locations_place graph u unit k node i) unit.version (Fixed 0) addresses addr_base ≡ Ok (read_locations unit.version (node_at graph u unit) (locations_place graph u unit k node i) list) }
{}
