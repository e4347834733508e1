//! What an object file is made of.

use ds_base::List;
use dwarf_types::OutUnit;
use macho_read::Symbols;
use reloc_table::Reloc;

/// What an object file is made of.
#[derive(Drop)]
pub struct ObjectSpec {
    /// The CPU type of the header.
    pub cpu: u32,
    /// The one unit, whose addresses are those that are stored in the object.
    pub unit: OutUnit,
    pub symbols: Symbols,
    /// The relocations of `__debug_info`, in their order.
    pub relocs: List<Reloc>,
}
