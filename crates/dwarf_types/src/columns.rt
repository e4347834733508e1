//! Heads and cells: an entry but for its attributes, and an attribute.

ghost use Rattle.std.specs.Prelude.{◌≡◌, ◌==◌, ◌<◌, ◌≤◌, ◌+◌, length, map, drop, slice_get, Some};
ghost use Rattle.std.specs.List.{list_any, position};
ghost use Rattle.dwarf_types.specs.Columns.{cells_of, held_of, parent_of};
ghost use Rattle.dwarf_types.specs.Plain.{holds_address, holds_offset, holds_plain};

use crate::sides::{Held, Kind};

/// The parent of an entry that has none.
pub(crate) const NO_PARENT: u32 = 0xffff_ffff;

/// An entry but for its attributes, and where its cells stand among all.
#[derive(Clone, Copy)]
pub(crate) struct Head {
    pub(crate) parent: u32,
    pub(crate) unit: u32,
    pub(crate) place: u32,
    pub(crate) first: u32,
    /// At most `MOST_FIELDS`.
    pub(crate) count: u16,
    pub(crate) tag: u16,
}

const _: () = prove!(size_of::<Head>() == 20);

/// An attribute.
#[derive(Clone, Copy)]
pub(crate) struct Cell {
    pub(crate) name: u16,
    pub(crate) form: u8,
    pub(crate) kind: Kind,
    pub(crate) payload: u32,
}

const _: () = prove!(size_of::<Cell>() == 8);

impl Head {
    /// The number of the parent, if there is one.
    pub(crate) fn parent(&self) -> Option<u32>
        ensures { result ≡ parent_of self.now.parent }
    {
        if self.parent == NO_PARENT {
            None
        } else {
            Some(self.parent)
        }
    }
}

impl Cell {
    /// What it holds of its value.
    pub(crate) fn held(&self) -> Held
        ensures { result ≡ held_of self.now }
    {
        Held {
            kind: self.kind,
            payload: self.payload,
        }
    }
}

/// The cells of a head, or what else a column has of them, one item a cell.
pub(crate) fn cells_in<'a, C>(cells: &'a [C], head: &Head) -> &'a [C]
    requires { head.now.first + head.now.count ≤ length cells.now }
    ensures { result.now ≡ cells_of cells.now head.now }
{
    let first = head.first as usize;
    &cells[first..first + usize::from(head.count)]
}

/// The cells from a place on.
pub(crate) fn cells_from<C>(cells: &[C], from: usize) -> &[C]
    requires { from ≤ length cells.now }
    ensures { result.now ≡ drop from cells.now }
{
    &cells[from..]
}

/// The index of the first cell of a name.
pub(crate) fn first_named(cells: &[Cell], name: u16) -> Option<usize>
    ensures { result ≡ position (λ c. c.name == name) cells.now }
{
    cells.iter().position(|cell| cell.name == name)
}

/// Whether a cell has the name.
pub(crate) fn has_name(cells: &[Cell], name: u16) -> bool
    ensures { result ≡ list_any (λ c. c.name == name) cells.now }
{
    cells.iter().any(|cell| cell.name == name)
}

/// The kind of a cell.
pub(crate) fn kind_at(cells: &[Cell], j: usize) -> Kind
    requires { j < length cells.now }
    ensures { slice_get (map (λ c. c.kind) cells.now) j ≡ Some result }
{
    cells[j].kind
}

/// The name of a cell.
pub(crate) fn name_at(cells: &[Cell], j: usize) -> u16
    requires { j < length cells.now }
    ensures { slice_get (map (λ c. c.name) cells.now) j ≡ Some result }
{
    cells[j].name
}

/// Whether a cell of this kind holds a text or a number.
pub(crate) fn is_plain(kind: Kind) -> bool
    ensures { result ≡ holds_plain kind }
{
    match kind {
        Kind::Small => true,
        Kind::Large => true,
        Kind::Text => true,
        Kind::OwnText => true,
        Kind::Wide => true,
        _ => false,
    }
}

/// Whether a cell of this kind holds an offset.
fn is_offset(kind: Kind) -> bool
    ensures { result ≡ holds_offset kind }
{
    match kind {
        Kind::Offset => true,
        Kind::LargeOffset => true,
        _ => false,
    }
}

/// Whether a cell holds an offset.
pub(crate) fn has_offset(cells: &[Cell]) -> bool
    ensures { result ≡ list_any (λ c. holds_offset c.kind) cells.now }
{
    cells.iter().any(|cell| is_offset(cell.kind))
}

/// Whether a cell of this kind holds an address.
fn is_address(kind: Kind) -> bool
    ensures { result ≡ holds_address kind }
{
    match kind {
        Kind::Stored => true,
        Kind::Address => true,
        _ => false,
    }
}

/// Whether a cell holds an address.
pub(crate) fn has_address(cells: &[Cell]) -> bool
    ensures { result ≡ list_any (λ c. holds_address c.kind) cells.now }
{
    cells.iter().any(|cell| is_address(cell.kind))
}
