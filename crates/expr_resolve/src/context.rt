//! What an expression is understood by.

ghost use Rattle.std.specs.Prelude.{◌≡◌};
ghost use Rattle.expr_resolve.specs.Context.{context_in, names_in, names_of};

use addr_map::AddrMap;
use ds_base::Part;
use dwarf_types::Sections;
use macho_read::Image;
use reloc_table::Relocs;

/// A base type among an object's entries.
#[derive(Clone, Copy)]
pub struct BaseType {
    /// The number of its entry in the object, counted from 0.
    pub entry: u32,
    /// The number of its unit in the object, counted from 0.
    pub unit: u32,
    /// Of its first byte in `__debug_info`.
    pub place: u32,
}

/// What an expression may name, and where it stands.
#[derive(Clone, Copy)]
pub struct ExprNames<'a> {
    /// The base types of the object, in the order of their places.
    pub bases: &'a [BaseType],
    /// The part of the file in which it stands.
    pub part: Part,
    /// The number of its unit in the object, counted from 0.
    pub unit: u32,
    /// Of the first byte of its unit in `__debug_info`.
    pub start: u32,
    /// The version of its unit.
    pub version: u16,
    /// The debug sections of the object.
    pub sections: &'a Sections<'a>,
    /// The place in `__debug_addr` of the first address of its unit's table.
    pub addr_base: u64,
}

/// The object of an expression, and where in it the expression stands.
#[derive(Clone, Copy)]
pub struct ExprContext<'a> {
    pub image: &'a Image,
    pub map: &'a AddrMap,
    /// The base types of the object, in the order of their places.
    pub bases: &'a [BaseType],
    /// The part of the file in which it stands.
    pub part: Part,
    /// The relocations of that part.
    pub relocs: &'a Relocs,
    /// The number of its unit in the object, counted from 0.
    pub unit: u32,
    /// Of the first byte of its unit in `__debug_info`.
    pub start: u32,
    /// The version of its unit.
    pub version: u16,
    /// The debug sections of the object.
    pub sections: &'a Sections<'a>,
    /// The relocations of `__debug_addr`.
    pub addresses: &'a Relocs,
    /// The place in `__debug_addr` of the first address of its unit's table.
    pub addr_base: u64,
}

impl<'a> ExprContext<'a> {
    /// What the expression may name.
    pub(crate) fn names(&self) -> ExprNames<'a>
        ensures { names_in result ≡ names_of (context_in self.now) }
    {
        ExprNames {
            bases: self.bases,
            part: self.part,
            unit: self.unit,
            start: self.start,
            version: self.version,
            sections: self.sections,
            addr_base: self.addr_base,
        }
    }
}
