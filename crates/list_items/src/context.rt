//! What the items of a list are understood by.

use ds_base::Part;
use dwarf_types::Sections;
use macho_read::Image;
use reloc_table::Relocs;

/// How the items of a list are spelled.
#[derive(Clone, Copy)]
pub enum ListForm {
    /// By two words each: in `__debug_ranges` and `__debug_loc` (DWARF 4, sections 2.17.3 and 2.6.2).
    Words,
    /// By range list entries: in `__debug_rnglists` (DWARF 5, section 2.17.3).
    RangeEntries,
    /// By location list entries: in `__debug_loclists` (DWARF 5, section 2.6.2).
    LocationEntries,
}

/// A section in which lists stand.
#[derive(Clone, Copy)]
pub struct ListSection {
    pub part: Part,
    /// How the items of its lists are spelled.
    pub form: ListForm,
}

/// The object of a list, how the list's items are spelled, and the addresses that its unit names by indices.
#[derive(Clone, Copy)]
pub struct ListContext<'a> {
    pub form: ListForm,
    pub image: &'a Image,
    /// The relocations of the section in which the list stands.
    pub relocs: &'a Relocs,
    pub sections: &'a Sections<'a>,
    /// The relocations of `__debug_addr`.
    pub addresses: &'a Relocs,
    /// The place in `__debug_addr` of the first address of the unit's table.
    pub addr_base: u64,
}
