//! What the definition of location lists says of one.

ghost use Rattle.std.specs.Prelude.{◌≡◌, ℕ, Err};
ghost use Rattle.std.specs.List.{Contains};
ghost use Rattle.ds_base.specs.declared.fault.Fault.{Fault};
ghost use Rattle.dwarf_types.specs.declared.address.Addr.{Addr};
ghost use Rattle.dwarf_types.specs.SectionBytes.{SectionBytes, location_bytes};
ghost use Rattle.list_items.specs.Lists.{list_spot, whole_at};
ghost use Rattle.list_items.specs.Whole.{IsWhole};
ghost use Rattle.macho_read.specs.declared.image.Image.{Image};
ghost use Rattle.reloc_table.specs.declared.relocation.Relocs.{Relocs};
ghost use Rattle.loc_lists.specs.Reading.{location_at, location_context, location_faults, location_items, location_part, locations_of};

/// The items of a location list follow each other without a gap from its offset, each read under the base that was
/// selected last. They end with the mark that ends the list, and the list is what they give; or they end at the first that
/// is wrong, whose fault is the list's.
pub fn items_fill_a_location_list()
    ensures { (sections : SectionBytes) (relocs : Relocs) (image : Image) (offset version : ℕ) (base : Addr) (addresses : Relocs) (addr_base : ℕ) →
        IsWhole (whole_at (location_context sections relocs image version addresses addr_base) (location_at version)) base (list_spot (location_part version) (location_bytes sections version) offset)
        (location_items sections relocs image offset version base addresses addr_base) (locations_of sections relocs image offset version base addresses addr_base) }
{}

/// Each fault of a location list is of one of these kinds, which are two in version 4 and five in version 5.
pub fn kinds_of_location_faults()
    ensures { (sections : SectionBytes) (relocs : Relocs) (image : Image) (offset version : ℕ) (base : Addr) (addresses : Relocs) (addr_base : ℕ) (f : Fault) →
        locations_of sections relocs image offset version base addresses addr_base ≡ Err f → Contains (location_faults version) f.kind }
{}
