//! Values where they stand: an attribute, its value, and the parts of that, which borrow what is long.

ghost use Rattle.std.specs.Prelude.{◌≡◌, ◌<◌, [], All, IsSome, length, map, slice_index_or};
ghost use Rattle.std.specs.Option.{unwrap_or};
ghost use Rattle.ds_base.specs.Reading.{text_of};
ghost use Rattle.dwarf_types.specs.Cells.{InnerWithin, IsAddress, IsRun, IsWithin, ItemWithin, OpWithin, address_at, held_value, inner_of, item_of, op_of, run_at};
ghost use Rattle.dwarf_types.specs.Columns.{CellWithin, attr_of};
ghost use Rattle.dwarf_types.specs.LinkedExpressions.{outside};
ghost use Rattle.dwarf_types.specs.Moves.{place_in};
ghost use Rattle.dwarf_types.specs.Put.{number_form};
ghost use Rattle.dwarf_types.specs.Runs.{InRun, run_of};
ghost use Rattle.dwarf_types.specs.Seen.{attr_seen, inner_seen, location_seen, op_seen, value_seen};

use crate::address::{Addr, Place, Span};
use crate::columns::Cell;
use crate::expr::Base;
use crate::op_rows::OpRowsPart;
use crate::runs::part_of;
use crate::sides::{InnerRow, ItemRow, Kind, OpRow, Sides};
use ds_base::dwarf::{DW_FORM_implicit_const, DW_FORM_sdata};
use ds_base::text_in;
use std::marker::Model;

/// The value of an attribute where it stands, by the class of its form.
#[derive(Drop)]
pub enum ValueRef<'a> {
    /// Class address.
    Address(Place),
    /// Class string, without the zero byte that ends it.
    Text(&'a [u8]),
    /// Classes constant and flag, up to 64 bits: the bits, and the form in which they stood.
    Number { form: u16, bits: u64 },
    /// A constant of 16 bytes, the lowest first.
    Wide(&'a [u8]),
    /// Classes block and exprloc, as they are read: the bytes behind the length, and the form.
    Block { form: u16, bytes: &'a [u8] },
    /// Class exprloc: the operations.
    Expr(OpsRef<'a>),
    /// Class reference: the entry to which it leads, by its place as it is read, by its number in an analysis.
    Ref(u32),
    /// Class rnglist: the addresses in the linked program.
    Ranges(&'a [Span]),
    /// Class loclist: the locations, item by item.
    Locations(LocationsRef<'a>),
    /// Class lineptr, at a unit's root: the unit has a line table.
    Lines,
    /// Classes reference, lineptr, loclist and rnglist, as they are read: the stored number.
    Offset(u64),
}

impl ValueRef<'_> {
    /// The address that a value of class address is.
    pub fn place(&self) -> Option<Place>
        ensures { result ≡ place_in (value_seen self.now) }
    {
        match self {
            ValueRef::Address(place) => Some(*place),
            _ => None,
        }
    }
}

/// An attribute where it stands.
#[derive(Drop)]
pub struct AttrRef<'a> {
    /// The `DW_AT` number.
    pub name: u16,
    /// The `DW_FORM` number in which the value was read.
    pub form: u16,
    pub value: ValueRef<'a>,
}

/// An attribute as it is read, where it stands.
#[derive(Drop)]
pub struct RawAttrRef<'a> {
    /// The `DW_AT` number.
    pub name: u16,
    /// The `DW_FORM` number in which the value was read.
    pub form: u16,
    /// Of the first byte behind its value in `__debug_info`.
    pub end: u32,
    pub value: ValueRef<'a>,
}

/// The operations of an expression where they stand, which contracts see as the list of them.
#[derive(Drop)]
pub struct OpsRef<'a> {
    sides: &'a Sides,
    rows: OpRowsPart<'a>,
}

impl<'a> Model for OpsRef<'a> {
    ghost use Rattle.std.specs.Prelude.{All, List, map};
    ghost use Rattle.std.specs.Coded.{coded_list};
    ghost use Rattle.dwarf_types.specs.declared.expr.Op.{Op as AnOp};
    ghost use Rattle.dwarf_types.specs.contracts.expr.Op.{the_row};

    ghost Value = { List AnOp };

    ghost coded = { coded_list the_row.coded };

    ghost use Rattle.dwarf_types.specs.Cells.{OpWithin, op_of};

    ghost view = { λ o. map (op_of o.sides.now) o.rows };

    ghost invariant = { λ o. All (OpWithin o.sides.now) o.rows };
}

/// An operation where it stands.
#[derive(Drop)]
pub struct OpRef<'a> {
    /// The `DW_OP` number.
    pub code: u8,
    /// All bytes of the operation as they were read, the code first.
    pub bytes: &'a [u8],
    /// What its operand means, where that is an address.
    pub address: Option<Place>,
    /// The base type that it names, where it names one.
    pub base: Option<Base>,
    /// The operations of the expression inside, where it is an entry value; else none.
    pub inner: InnerOpsRef<'a>,
}

impl<'a> OpsRef<'a> {
    pub(crate) fn new(sides: &'a Sides, rows: OpRowsPart<'a>) -> OpsRef<'a>
        requires { All (OpWithin sides.now) rows }
        ensures { result ≡ map (op_of sides.now) rows.entry }
    {
        OpsRef { sides, rows }
    }

    /// How many operations there are.
    pub fn len(&self) -> usize
        ensures { result ≡ length self.now }
    {
        self.rows.len()
    }

    /// The operation at a place, counted from 0.
    pub fn op(&self, k: usize) -> OpRef<'a>
        requires { k < length self.now }
        ensures { op_seen result ≡ slice_index_or self.now k (op_seen result) }
    {
        op_in(self.sides, self.rows.row(k))
    }
}

impl<'a> OpRef<'a> {
    /// It without the operations inside.
    pub fn outside(&self) -> InnerOpRef<'a>
        ensures { inner_seen result ≡ outside (op_seen self.now) }
    {
        InnerOpRef {
            code: self.code,
            bytes: self.bytes,
            address: self.address,
            base: self.base,
        }
    }
}

/// The operation of a row.
fn op_in<'a>(sides: &'a Sides, row: OpRow) -> OpRef<'a>
    requires { OpWithin sides.now row }
    ensures { op_seen result ≡ op_of sides.now row }
{
    OpRef {
        code: row.code,
        bytes: part_of(&sides.bytes, row.bytes),
        address: address_in(sides, row.address),
        base: row.base,
        inner: InnerOpsRef::new(sides, part_of(&sides.inner, row.inner)),
    }
}

/// The address at a place of the column.
fn address_in(sides: &Sides, at: Option<usize>) -> Option<Place>
    requires { IsAddress sides.now at }
    ensures { result ≡ address_at sides.now at }
{
    match at {
        Some(i) => Some(sides.addresses[i]),
        None => None,
    }
}

/// The operations inside an operation where they stand, which contracts see as the list of them.
#[derive(Drop)]
pub struct InnerOpsRef<'a> {
    sides: &'a Sides,
    rows: &'a [InnerRow],
}

impl<'a> Model for InnerOpsRef<'a> {
    ghost use Rattle.std.specs.Prelude.{All, List, map};
    ghost use Rattle.std.specs.Coded.{coded_list};
    ghost use Rattle.dwarf_types.specs.declared.expr.PlainOp.{PlainOp as AnOp};
    ghost use Rattle.dwarf_types.specs.contracts.expr.PlainOp.{the_row};

    ghost Value = { List AnOp };

    ghost coded = { coded_list the_row.coded };

    ghost use Rattle.dwarf_types.specs.Cells.{InnerWithin, inner_of};

    ghost view = { λ o. map (inner_of o.sides.now) o.rows.now };

    ghost invariant = { λ o. All (InnerWithin o.sides.now) o.rows.now };
}

/// An operation inside another, where it stands.
#[derive(Clone, Copy)]
pub struct InnerOpRef<'a> {
    /// The `DW_OP` number.
    pub code: u8,
    /// All bytes of the operation as they were read, the code first.
    pub bytes: &'a [u8],
    /// What its operand means, where that is an address.
    pub address: Option<Place>,
    /// The base type that it names, where it names one.
    pub base: Option<Base>,
}

impl<'a> InnerOpsRef<'a> {
    pub(crate) fn new(sides: &'a Sides, rows: &'a [InnerRow]) -> InnerOpsRef<'a>
        requires { All (InnerWithin sides.now) rows.now }
        ensures { result ≡ map (inner_of sides.now) rows.now }
    {
        InnerOpsRef { sides, rows }
    }

    /// How many operations there are.
    pub fn len(&self) -> usize
        ensures { result ≡ length self.now }
    {
        self.rows.len()
    }

    /// The operation at a place, counted from 0.
    pub fn op(&self, k: usize) -> InnerOpRef<'a>
        requires { k < length self.now }
        ensures { inner_seen result ≡ slice_index_or self.now k (inner_seen result) }
    {
        inner_in(self.sides, self.rows[k])
    }
}

/// The operation of a row.
fn inner_in<'a>(sides: &'a Sides, row: InnerRow) -> InnerOpRef<'a>
    requires { InnerWithin sides.now row }
    ensures { inner_seen result ≡ inner_of sides.now row }
{
    InnerOpRef {
        code: row.code,
        bytes: part_of(&sides.bytes, row.bytes),
        address: address_in(sides, row.address),
        base: row.base,
    }
}

/// A location list where it stands, which contracts see as the list of its items.
#[derive(Drop)]
pub struct LocationsRef<'a> {
    sides: &'a Sides,
    rows: &'a [ItemRow],
}

impl<'a> Model for LocationsRef<'a> {
    ghost use Rattle.std.specs.Prelude.{All, List, map};
    ghost use Rattle.std.specs.Coded.{coded_list};
    ghost use Rattle.dwarf_types.specs.declared.lists.Location.{Location as ALocation};
    ghost use Rattle.dwarf_types.specs.contracts.lists.Location.{the_row};

    ghost Value = { List ALocation };

    ghost coded = { coded_list the_row.coded };

    ghost use Rattle.dwarf_types.specs.Cells.{ItemWithin, item_of};

    ghost view = { λ l. map (item_of l.sides.now) l.rows.now };

    ghost invariant = { λ l. All (ItemWithin l.sides.now) l.rows.now };
}

/// An item of a location list where it stands.
#[derive(Drop)]
pub struct LocationRef<'a> {
    pub span: Span,
    pub ops: OpsRef<'a>,
}

impl<'a> LocationsRef<'a> {
    pub(crate) fn new(sides: &'a Sides, rows: &'a [ItemRow]) -> LocationsRef<'a>
        requires { All (ItemWithin sides.now) rows.now }
        ensures { result ≡ map (item_of sides.now) rows.now }
    {
        LocationsRef { sides, rows }
    }

    /// How many items there are.
    pub fn len(&self) -> usize
        ensures { result ≡ length self.now }
    {
        self.rows.len()
    }

    /// The item at a place, counted from 0.
    pub fn item(&self, k: usize) -> LocationRef<'a>
        requires { k < length self.now }
        ensures { location_seen result ≡ slice_index_or self.now k (location_seen result) }
    {
        item_in(self.sides, self.rows[k])
    }
}

/// The item of a row.
fn item_in<'a>(sides: &'a Sides, row: ItemRow) -> LocationRef<'a>
    requires { ItemWithin sides.now row }
    ensures { location_seen result ≡ item_of sides.now row }
{
    LocationRef {
        span: row.span,
        ops: OpsRef::new(sides, sides.ops.part(row.ops)),
    }
}

/// The attribute of a cell.
pub(crate) fn attr_in<'a>(sides: &'a Sides, cell: Cell) -> AttrRef<'a>
    requires { CellWithin sides.now cell }
    ensures { attr_seen result ≡ attr_of sides.now cell }
{
    AttrRef {
        name: cell.name,
        form: u16::from(cell.form),
        value: value_in(sides, cell),
    }
}

/// The value of a cell.
pub(crate) fn value_in<'a>(sides: &'a Sides, cell: Cell) -> ValueRef<'a>
    requires { CellWithin sides.now cell }
    ensures { value_seen result ≡ held_value sides.now cell.kind cell.form cell.payload }
{
    let at = cell.payload as usize;
    match cell.kind {
        Kind::Small => ValueRef::Number {
            form: number_form(u16::from(cell.form)),
            bits: u64::from(cell.payload),
        },
        Kind::Large => ValueRef::Number {
            form: number_form(u16::from(cell.form)),
            bits: sides.large[at],
        },
        Kind::Text => ValueRef::Text(text_at(&sides.bytes, cell.payload)),
        Kind::OwnText => ValueRef::Text(bytes_in(sides, at)),
        Kind::Wide => ValueRef::Wide(bytes_in(sides, at)),
        Kind::Block => ValueRef::Block {
            form: u16::from(cell.form),
            bytes: bytes_in(sides, at),
        },
        Kind::Stored => ValueRef::Address(Place {
            at: Addr::Fixed(u64::from(cell.payload)),
            linked: None,
            linked_end: None,
        }),
        Kind::Address => ValueRef::Address(sides.places[at]),
        Kind::Ref => ValueRef::Ref(cell.payload),
        Kind::Expr => {
            let rows = sides.ops.part(sides.lists[at]);
            ValueRef::Expr(OpsRef::new(sides, rows))
        }
        Kind::Ranges => ValueRef::Ranges(part_of(&sides.spans, sides.lists[at])),
        Kind::Locations => {
            let rows = part_of(&sides.items, sides.lists[at]);
            ValueRef::Locations(LocationsRef::new(sides, rows))
        }
        Kind::Lines => ValueRef::Lines,
        Kind::Offset => ValueRef::Offset(u64::from(cell.payload)),
        Kind::LargeOffset => ValueRef::Offset(sides.large[at]),
    }
}

/// The form of a number that was read in a form: a constant of the abbreviation table is one with a sign.
fn number_form(form: u16) -> u16
    ensures { result ≡ number_form form }
{
    if form == DW_FORM_implicit_const {
        DW_FORM_sdata
    } else {
        form
    }
}

/// The text that stands at a place.
fn text_at(bytes: &[u8], place: u32) -> &[u8]
    requires { IsSome (text_of bytes.now place) }
    ensures { result.now ≡ unwrap_or (text_of bytes.now place) [] }
{
    match text_in(bytes, place) {
        Some(text) => text,
        None => unreachable!(),
    }
}

/// The bytes of the run at a place.
fn bytes_in<'a>(sides: &'a Sides, at: usize) -> &'a [u8]
    requires { IsRun sides.now sides.now.bytes.items at }
    ensures { result.now ≡ run_of sides.now.bytes.items (run_at sides.now at) }
{
    part_of(&sides.bytes, sides.runs[at])
}
