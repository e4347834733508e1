//! Entries and references, as they are kept while units are read.

ghost use Rattle.std.specs.Prelude.{◌≡◌, [], length, slice_get, IfOk};
ghost use Rattle.unit_tree.specs.Bounds.{IsReady, parsed_seen};
ghost use Rattle.unit_tree.specs.Unit.{nothing};

use crate::packed::PackedReference;
use crate::reference::Reference;
use ds_base::{List, NoMemory};
use dwarf_types::{Builder, RawEntryRef, Sections};
use std::alloc::Global;

/// Entries of C++ as compilers write them have one reference in so many bytes, or in a few more.
const BYTES_A_REFERENCE: usize = 8;

/// Entries that were read, and the references of their values.
#[derive(Drop)]
pub struct Parsed {
    /// The entries in document order.
    pub(crate) built: Builder,
    /// The references of their values, in document order.
    pub(crate) references: List<PackedReference>,
}

impl Parsed {
    /// Nothing. Memory is set aside for what so many bytes of `__debug_info` mostly have, where there is so much.
    pub fn new(alloc: Global, sections: &Sections, size: usize) -> Result<Parsed, NoMemory>
        ensures nothing { IfOk result (λ made. parsed_seen made ≡ nothing) }
        ensures ready { IfOk result IsReady }
    {
        Ok(Parsed {
            built: Builder::new(alloc, sections.strings, sections.line_str, size)?,
            references: room_for(alloc, size / BYTES_A_REFERENCE),
        })
    }

    /// How many entries there are.
    pub fn len(&self) -> usize
        ensures { result ≡ length (parsed_seen self.now).entries }
    {
        self.built.len()
    }

    /// The entry of a number, or `None` behind the last.
    pub fn entry(&self, i: usize) -> Option<RawEntryRef<'_>>
        ensures { result ≡ slice_get (parsed_seen self.now).entries i }
    {
        self.built.get(i)
    }

    /// How many references there are.
    pub fn reference_count(&self) -> usize
        ensures { result ≡ length (parsed_seen self.now).references }
    {
        self.references.len()
    }

    /// The reference of a number in document order, or `None` behind the last.
    pub fn reference(&self, i: usize) -> Option<Reference>
        ensures { result ≡ slice_get (parsed_seen self.now).references i }
    {
        match self.references.get(i) {
            Some(packed) => Some(packed.unpacked()),
            None => None,
        }
    }
}

/// No references, and room for `count` of them if the allocator has it.
fn room_for(alloc: Global, count: usize) -> List<PackedReference>
    ensures { result ≡ [] }
{
    match List::with_capacity(alloc, count) {
        Ok(references) => references,
        Err(_) => List::new(alloc),
    }
}
