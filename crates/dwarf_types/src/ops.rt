//! Operations and locations that are put one behind the other.

ghost use Rattle.std.specs.Prelude.{◌≡◌, ◌<◌, [], ◌∷◌, ◌++◌, length, slice_get, Some, OnOk, OnErr};
ghost use Rattle.dwarf_types.specs.Seen.{inner_seen, op_seen};

use crate::address::Span;
use crate::op_rows::OpRows;
use crate::runs::run_between;
use crate::seen::{InnerOpRef, LocationsRef, OpRef, OpsRef};
use crate::sides::{ItemRow, OpRow, Sides};
use ds_base::NoMemory;
use std::alloc::Global;
use std::marker::Model;

/// Operations of an expression that are put one behind the other, and those that will stand inside the next one.
///
/// It is made once and cleared for each expression, so that no expression asks for memory of its own.
#[derive(Drop)]
pub struct Ops {
    rows: OpRows,
    /// Bytes, addresses and the operations inside; no others.
    sides: Sides,
    /// The place of the first operation inside that is no operation's yet.
    open_from: usize,
}

impl Model for Ops {
    ghost use Rattle.dwarf_types.specs.Gathered.{Gathered};

    ghost Value = { Gathered };

    ghost use Rattle.dwarf_types.specs.Gathered.{AreRows, gathered_of};

    ghost view = { λ o. gathered_of o.sides o.rows o.open_from };

    ghost invariant = { λ o. AreRows o.sides o.rows o.open_from };
}

impl Ops {
    /// No operations.
    pub fn new(alloc: Global) -> Ops
        ensures { result ≡ record { ops = []; inner = [] } }
    {
        Ops {
            rows: OpRows::new(alloc),
            sides: Sides::new(alloc),
            open_from: 0,
        }
    }

    /// Takes all operations out. The memory is kept.
    pub fn clear(&mut self)
        ensures { self.new ≡ record { ops = []; inner = [] } }
    {
        self.rows.clear();
        self.sides.clear_ops();
        self.open_from = 0;
    }

    /// How many operations there are.
    pub fn len(&self) -> usize
        ensures { result ≡ length self.now.ops }
    {
        self.rows.len()
    }

    /// The operations.
    pub fn as_ref(&self) -> OpsRef<'_>
        ensures { result ≡ self.now.ops }
    {
        OpsRef::new(&self.sides, self.rows.whole())
    }

    /// The operation at a place, counted from 0.
    pub fn op(&self, k: usize) -> OpRef<'_>
        requires { k < length self.now.ops }
        ensures { slice_get self.now.ops k ≡ Some (op_seen result) }
    {
        self.as_ref().op(k)
    }

    /// Puts an operation behind those that will stand inside the next one.
    pub fn push_inner(&mut self, op: &InnerOpRef<'_>) -> Result<(), NoMemory>
        ensures ok { OnOk result (self.new ≡ record self.old { inner = self.old.inner ++ inner_seen op.now ∷ [] }) }
        ensures unchanged { OnErr result (self.new ≡ self.old) }
    {
        self.sides.store_inner(op)?;
        Ok(())
    }

    /// Puts an operation behind the others. Those that were put with `push_inner` stand inside it.
    pub fn push(&mut self, op: &InnerOpRef<'_>) -> Result<(), NoMemory>
        ensures ok { OnOk result (self.new ≡ record { ops = self.old.ops ++ record { code = op.now.code; bytes = op.now.bytes.now; address = op.now.address; base = op.now.base; inner = self.old.inner } ∷ []; inner = [] }) }
        ensures unchanged { OnErr result (self.new ≡ self.old) }
    {
        let (bytes, address) = self.sides.store_parts(op.bytes, op.address)?;
        let end = self.sides.inner.len();
        self.rows.push(OpRow {
            code: op.code,
            bytes,
            address,
            base: op.base,
            inner: run_between(self.open_from, end),
        })?;
        self.open_from = end;
        Ok(())
    }
}

/// A location list that is put together item by item, which contracts see as the list of its items.
#[derive(Drop)]
pub struct LocationList {
    rows: Vec<ItemRow>,
    /// Operations, and what they need; no others.
    sides: Sides,
}

impl Model for LocationList {
    ghost use Rattle.std.specs.Prelude.{All, List, map};
    ghost use Rattle.std.specs.Coded.{coded_list};
    ghost use Rattle.dwarf_types.specs.declared.lists.Location.{Location as ALocation};
    ghost use Rattle.dwarf_types.specs.contracts.lists.Location.{the_row};

    ghost Value = { List ALocation };

    ghost coded = { coded_list the_row.coded };

    ghost use Rattle.dwarf_types.specs.Cells.{ItemWithin, item_of};

    ghost view = { λ l. map (item_of l.sides) l.rows.items };

    ghost invariant = { λ l. All (ItemWithin l.sides) l.rows.items };
}

impl LocationList {
    /// No items.
    pub fn new(alloc: Global) -> LocationList
        ensures { result ≡ [] }
    {
        LocationList {
            rows: Vec::new(alloc),
            sides: Sides::new(alloc),
        }
    }

    /// The items.
    pub fn as_ref(&self) -> LocationsRef<'_>
        ensures { result ≡ self.now }
    {
        LocationsRef::new(&self.sides, &self.rows)
    }

    /// Puts an item behind the others: where the object is found in a span.
    pub fn push(&mut self, span: Span, ops: &OpsRef<'_>) -> Result<(), NoMemory>
        ensures ok { OnOk result (self.new ≡ self.old ++ record { span = span; ops = ops.now } ∷ []) }
        ensures unchanged { OnErr result (self.new ≡ self.old) }
    {
        let ops = self.sides.store_ops(ops)?;
        self.rows.push(ItemRow { span, ops })?;
        Ok(())
    }
}
