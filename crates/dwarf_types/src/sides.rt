//! What a cell holds, and the columns beside the cells.

ghost use Rattle.std.specs.Prelude.{◌≡◌, ◌+◌, ◌++◌, ◌^◌, ◌<◌, ℕ, [], ◌∷◌, All, length, map, slice_get, Some, IfOk, OnOk, OnErr, true, false};
ghost use Rattle.ds_base.specs.Reading.{text_of};
ghost use Rattle.dwarf_types.specs.declared.sides.InnerRow.{InnerRow as AnInner};
ghost use Rattle.dwarf_types.specs.declared.sides.ItemRow.{ItemRow as AnItem};
ghost use Rattle.dwarf_types.specs.declared.sides.Kind.TheVariants as kinds;
ghost use Rattle.dwarf_types.specs.declared.sides.OpRow.{OpRow as ARow};
ghost use Rattle.dwarf_types.specs.Cells.{AreAsMany, AreCopies, Grows, HaveNone, HaveRoom, InnerWithin, IsAddress, IsWithin, ItemWithin, KeepsOthers, MayHold, OpWithin, PutsOver, PutsOwn, PutsRead, held_value, address_at, inner_of, item_of, op_of, own_item, own_items, stored_place};
ghost use Rattle.dwarf_types.specs.Put.{number_form, value_put, value_read};
ghost use Rattle.dwarf_types.specs.Runs.{InRun, run_of};
ghost use Rattle.dwarf_types.specs.Seen.{inner_seen, location_seen, op_seen};
ghost use Rattle.dwarf_types.specs.declared.value.Value.TheVariants as values;

use crate::address::{Addr, Place, Span};
use crate::expr::Base;
use crate::op_rows::OpRows;
use crate::put::{NewValue, RawValue};
use crate::runs::{Run, append, held_by, room_for, run_between, take_copy};
use crate::seen::{InnerOpRef, InnerOpsRef, LocationRef, LocationsRef, OpRef, OpsRef};
use ds_base::{NoMemory, text_in};
use std::alloc::Global;

/// What the payload of a cell is.
#[derive(Clone, Copy)]
pub(crate) enum Kind {
    /// A constant or flag below 2^32.
    Small,
    /// The place of a constant in its column.
    Large,
    /// The place of the first byte of a text, which ends before the next zero byte.
    Text,
    /// The place of the run of a text.
    OwnText,
    /// The place of the run of a constant of 16 bytes.
    Wide,
    /// The place of the run of a block.
    Block,
    /// A stored address below 2^32, which has gone nowhere.
    Stored,
    /// The place of an address in its column.
    Address,
    /// The place, or the number, of an entry.
    Ref,
    /// The place of the run of the operations.
    Expr,
    /// The place of the run of the spans.
    Ranges,
    /// The place of the run of the items.
    Locations,
    /// Nothing.
    Lines,
    /// An offset below 2^32.
    Offset,
    /// The place of an offset in the column of numbers.
    LargeOffset,
}

/// An operation inside another, in its column.
#[derive(Clone, Copy)]
pub(crate) struct InnerRow {
    pub(crate) code: u8,
    pub(crate) bytes: Run,
    /// The place of its address in the column of addresses.
    pub(crate) address: Option<usize>,
    pub(crate) base: Option<Base>,
}

/// An operation of its column, as contracts see it, and as it is put and read.
#[derive(Clone, Copy)]
pub(crate) struct OpRow {
    pub(crate) code: u8,
    pub(crate) bytes: Run,
    /// The place of its address in the column of addresses.
    pub(crate) address: Option<usize>,
    pub(crate) base: Option<Base>,
    /// The operations inside.
    pub(crate) inner: Run,
}

/// An item of a location list in its column.
#[derive(Clone, Copy)]
pub(crate) struct ItemRow {
    pub(crate) span: Span,
    pub(crate) ops: Run,
}

/// A value, as it stands in a cell.
#[derive(Clone, Copy)]
pub(crate) struct Held {
    pub(crate) kind: Kind,
    pub(crate) payload: u32,
}

/// The columns beside the cells. What stood in one stays there, but for the address of a cell that gets another one.
#[derive(Drop)]
pub(crate) struct Sides {
    /// Numbers that 32 bits do not hold.
    pub(crate) large: Vec<u64>,
    /// The sections of texts, one behind the other, and behind them all other bytes.
    pub(crate) bytes: Vec<u8>,
    /// The runs of texts, of constants of 16 bytes, and of blocks.
    pub(crate) runs: Vec<Run>,
    /// Those of operations, of spans, and of items of location lists.
    pub(crate) lists: Vec<Run>,
    /// The addresses of cells.
    pub(crate) places: Vec<Place>,
    /// Those of operations.
    pub(crate) addresses: Vec<Place>,
    pub(crate) spans: Vec<Span>,
    pub(crate) ops: OpRows,
    pub(crate) inner: Vec<InnerRow>,
    pub(crate) items: Vec<ItemRow>,
}

impl Sides {
    /// Empty columns.
    pub(crate) fn new(alloc: Global) -> Sides
        ensures inner { result.inner.items ≡ [] }
        ensures few { HaveNone result }
    {
        Sides {
            large: Vec::new(alloc),
            bytes: Vec::new(alloc),
            runs: Vec::new(alloc),
            lists: Vec::new(alloc),
            places: Vec::new(alloc),
            addresses: Vec::new(alloc),
            spans: Vec::new(alloc),
            ops: OpRows::new(alloc),
            inner: Vec::new(alloc),
            items: Vec::new(alloc),
        }
    }

    /// A copy of the columns.
    pub(crate) fn copy(&self, alloc: Global) -> Result<Sides, NoMemory>
        ensures { IfOk result (AreCopies self.now) }
    {
        let mut made = Sides::new(alloc);
        made.take_copies(alloc, self)?;
        Ok(made)
    }

    /// Takes copies of other columns in place of these.
    fn take_copies(&mut self, alloc: Global, other: &Sides) -> Result<(), NoMemory>
        ensures { OnOk result (AreCopies other.now self.new) }
    {
        take_copy(&mut self.large, &other.large)?;
        take_copy(&mut self.bytes, &other.bytes)?;
        take_copy(&mut self.runs, &other.runs)?;
        take_copy(&mut self.lists, &other.lists)?;
        take_copy(&mut self.places, &other.places)?;
        take_copy(&mut self.addresses, &other.addresses)?;
        take_copy(&mut self.spans, &other.spans)?;
        take_copy(&mut self.inner, &other.inner)?;
        take_copy(&mut self.items, &other.items)?;
        self.ops = other.ops.copy(alloc)?;
        Ok(())
    }

    /// How many bytes they hold.
    pub(crate) fn held_bytes(&self) -> u64 {
        let numbers = held_by(&self.large, 8).saturating_add(held_by(&self.bytes, 1));
        let runs = held_by(&self.runs, size_of::<Run>()).saturating_add(held_by(
            &self.lists,
            size_of::<Run>(),
        ));
        let places = held_by(&self.places, size_of::<Place>()).saturating_add(held_by(
            &self.addresses,
            size_of::<Place>(),
        ));
        let ops = self
            .ops
            .held_bytes()
            .saturating_add(held_by(&self.inner, size_of::<InnerRow>()));
        let lists = held_by(&self.spans, size_of::<Span>()).saturating_add(held_by(
            &self.items,
            size_of::<ItemRow>(),
        ));
        numbers
            .saturating_add(runs)
            .saturating_add(places)
            .saturating_add(ops)
            .saturating_add(lists)
    }

    /// Columns that are empty but for the sections of texts.
    pub(crate) fn with_texts(
        alloc: Global,
        strings: &[u8],
        line_strings: &[u8],
    ) -> Result<Sides, NoMemory>
        ensures { IfOk result HaveNone }
    {
        let mut sides = Sides::new(alloc);
        let size = strings.len().saturating_add(line_strings.len());
        // A little more where there is so much, so that the few bytes that stand in attributes find room behind the texts.
        sides.bytes = room_for(alloc, size.saturating_add(size / 16));
        sides.put_texts(strings, line_strings)?;
        Ok(sides)
    }

    /// Puts the sections of texts last, for which no more memory is asked than they need.
    fn put_texts(&mut self, strings: &[u8], line_strings: &[u8]) -> Result<(), NoMemory>
        ensures { AreAsMany self.old self.new }
    {
        let size = strings.len().saturating_add(line_strings.len());
        self.bytes.reserve_exact(size)?;
        self.bytes.extend_from_slice(strings)?;
        self.bytes.extend_from_slice(line_strings)?;
        Ok(())
    }

    /// Takes all out of the columns and puts the sections of texts in. The memory is kept.
    pub(crate) fn begin_again(
        &mut self,
        strings: &[u8],
        line_strings: &[u8],
    ) -> Result<(), NoMemory>
        ensures { HaveNone self.new }
    {
        self.clear();
        self.put_texts(strings, line_strings)
    }

    /// Takes all out of the columns. The memory is kept.
    fn clear(&mut self)
        ensures { HaveNone self.new }
    {
        self.clear_ops();
        self.large.clear();
        self.runs.clear();
        self.lists.clear();
        self.places.clear();
        self.spans.clear();
        self.ops.clear();
        self.items.clear();
    }

    /// Puts what a cell cannot hold of a value behind the columns. The value was read in a form.
    pub(crate) fn store_read(&mut self, form: u16, value: RawValue<'_>) -> Result<Held, NoMemory>
        requires { HaveRoom self.old }
        ensures value { IfOk result (λ h. held_value self.new h.kind form h.payload ≡ value_read form value.entry) }
        ensures within { IfOk result (λ h. IsWithin self.new h.kind h.payload) }
        ensures few { PutsRead self.old self.new result }
        ensures grows { Grows self.old self.new }
    {
        match value {
            RawValue::Address(number) => self.store_address(number),
            RawValue::Text { bytes, place } => self.store_text(bytes, place),
            RawValue::Number(bits) => self.store_number(bits),
            RawValue::Wide(bytes) => self.store_wide(bytes),
            RawValue::Block(bytes) => self.store_block(bytes),
            RawValue::Ref(place) => Ok(Held {
                kind: Kind::Ref,
                payload: place,
            }),
            RawValue::Offset(n) => self.store_offset(n),
        }
    }

    /// Puts what a cell cannot hold of an understood value behind the columns, in the place of what the cell held.
    pub(crate) fn store_over(&mut self, was: Held, value: NewValue<'_>) -> Result<Held, NoMemory>
        requires within { IsWithin self.old was.kind was.payload }
        requires becomes { MayHold was.kind value }
        requires room { own_item was.kind ≡ 0 → own_items self.old < 2 ^ 32 }
        ensures value { IfOk result (λ h. (form : ℕ) → held_value self.new h.kind form h.payload ≡ value_put value.entry) }
        ensures within { IfOk result (λ h. IsWithin self.new h.kind h.payload) }
        ensures few { PutsOver was self.old self.new result }
        ensures others { KeepsOthers was self.old self.new }
        ensures unchanged { OnErr result (Grows self.old self.new) }
    {
        match value {
            NewValue::Address(place) => self.store_place(was, place),
            NewValue::Expr(ops) => self.store_expr(&ops),
            NewValue::Ref(number) => Ok(Held {
                kind: Kind::Ref,
                payload: number,
            }),
            NewValue::Ranges(spans) => self.store_ranges(spans),
            NewValue::Locations(items) => self.store_locations(&items),
            NewValue::Lines => Ok(Held {
                kind: Kind::Lines,
                payload: 0,
            }),
        }
    }

    /// An address that is understood. It takes the place of the one before, where that stands in the column.
    fn store_place(&mut self, was: Held, place: Place) -> Result<Held, NoMemory>
        requires within { IsWithin self.old was.kind was.payload }
        requires becomes { (was.kind ≡ kinds.Address → ⊥) → own_item was.kind ≡ 0 }
        requires room { own_item was.kind ≡ 0 → own_items self.old < 2 ^ 32 }
        ensures value { IfOk result (λ h. (form : ℕ) → held_value self.new h.kind form h.payload ≡ values.Address place) }
        ensures within { IfOk result (λ h. IsWithin self.new h.kind h.payload) }
        ensures few { PutsOver was self.old self.new result }
        ensures others { KeepsOthers was self.old self.new }
        ensures unchanged { OnErr result (Grows self.old self.new) }
    {
        if has_place(was.kind) {
            self.places[was.payload as usize] = place;
            return Ok(was);
        }
        let payload = push_at(&mut self.places, place)?;
        Ok(Held {
            kind: Kind::Address,
            payload,
        })
    }

    /// A stored address.
    fn store_address(&mut self, number: u64) -> Result<Held, NoMemory>
        requires { HaveRoom self.old }
        ensures value { IfOk result (λ h. (form : ℕ) → held_value self.new h.kind form h.payload ≡ values.Address (stored_place number)) }
        ensures within { IfOk result (λ h. IsWithin self.new h.kind h.payload) }
        ensures few { PutsRead self.old self.new result }
        ensures grows { Grows self.old self.new }
    {
        if number < 1 << 32 {
            return Ok(Held {
                kind: Kind::Stored,
                payload: number as u32,
            });
        }
        let place = Place {
            at: Addr::Fixed(number),
            linked: None,
            linked_end: None,
        };
        let payload = push_at(&mut self.places, place)?;
        Ok(Held {
            kind: Kind::Address,
            payload,
        })
    }

    /// A text: where it stands in the sections of texts, else as bytes of its own.
    fn store_text(&mut self, text: &[u8], place: Option<u32>) -> Result<Held, NoMemory>
        requires { HaveRoom self.old }
        ensures value { IfOk result (λ h. (form : ℕ) → held_value self.new h.kind form h.payload ≡ values.Text text.now) }
        ensures within { IfOk result (λ h. IsWithin self.new h.kind h.payload) }
        ensures few { PutsRead self.old self.new result }
        ensures grows { Grows self.old self.new }
    {
        if let Some(place) = place {
            if stands_at(&self.bytes, place, text) {
                return Ok(Held {
                    kind: Kind::Text,
                    payload: place,
                });
            }
        }
        self.store_own_text(text)
    }

    /// A text as bytes of its own.
    fn store_own_text(&mut self, text: &[u8]) -> Result<Held, NoMemory>
        requires { HaveRoom self.old }
        ensures value { IfOk result (λ h. (form : ℕ) → held_value self.new h.kind form h.payload ≡ values.Text text.now) }
        ensures within { IfOk result (λ h. IsWithin self.new h.kind h.payload) }
        ensures few { PutsRead self.old self.new result }
        ensures grows { Grows self.old self.new }
    {
        let run = append(&mut self.bytes, text)?;
        let payload = push_at(&mut self.runs, run)?;
        Ok(Held {
            kind: Kind::OwnText,
            payload,
        })
    }

    /// A constant of 16 bytes.
    fn store_wide(&mut self, bytes: &[u8]) -> Result<Held, NoMemory>
        requires { HaveRoom self.old }
        ensures value { IfOk result (λ h. (form : ℕ) → held_value self.new h.kind form h.payload ≡ values.Wide bytes.now) }
        ensures within { IfOk result (λ h. IsWithin self.new h.kind h.payload) }
        ensures few { PutsRead self.old self.new result }
        ensures grows { Grows self.old self.new }
    {
        let run = append(&mut self.bytes, bytes)?;
        let payload = push_at(&mut self.runs, run)?;
        Ok(Held {
            kind: Kind::Wide,
            payload,
        })
    }

    /// A block.
    fn store_block(&mut self, bytes: &[u8]) -> Result<Held, NoMemory>
        requires { HaveRoom self.old }
        ensures value { IfOk result (λ h. (form : ℕ) → held_value self.new h.kind form h.payload ≡ values.Block form bytes.now) }
        ensures within { IfOk result (λ h. IsWithin self.new h.kind h.payload) }
        ensures few { PutsRead self.old self.new result }
        ensures grows { Grows self.old self.new }
    {
        let run = append(&mut self.bytes, bytes)?;
        let payload = push_at(&mut self.runs, run)?;
        Ok(Held {
            kind: Kind::Block,
            payload,
        })
    }

    /// A constant or flag.
    fn store_number(&mut self, bits: u64) -> Result<Held, NoMemory>
        requires { HaveRoom self.old }
        ensures value { IfOk result (λ h. (form : ℕ) → held_value self.new h.kind form h.payload ≡ values.Number (number_form form) bits) }
        ensures within { IfOk result (λ h. IsWithin self.new h.kind h.payload) }
        ensures few { PutsRead self.old self.new result }
        ensures grows { Grows self.old self.new }
    {
        if bits < 1 << 32 {
            return Ok(Held {
                kind: Kind::Small,
                payload: bits as u32,
            });
        }
        let payload = push_at(&mut self.large, bits)?;
        Ok(Held {
            kind: Kind::Large,
            payload,
        })
    }

    /// An offset.
    fn store_offset(&mut self, n: u64) -> Result<Held, NoMemory>
        requires { HaveRoom self.old }
        ensures value { IfOk result (λ h. (form : ℕ) → held_value self.new h.kind form h.payload ≡ values.Offset n) }
        ensures within { IfOk result (λ h. IsWithin self.new h.kind h.payload) }
        ensures few { PutsRead self.old self.new result }
        ensures grows { Grows self.old self.new }
    {
        if n < 1 << 32 {
            return Ok(Held {
                kind: Kind::Offset,
                payload: n as u32,
            });
        }
        let payload = push_at(&mut self.large, n)?;
        Ok(Held {
            kind: Kind::LargeOffset,
            payload,
        })
    }

    /// An expression.
    fn store_expr(&mut self, ops: &OpsRef<'_>) -> Result<Held, NoMemory>
        requires { own_items self.old < 2 ^ 32 }
        ensures value { IfOk result (λ h. (form : ℕ) → held_value self.new h.kind form h.payload ≡ values.Expr ops.now) }
        ensures within { IfOk result (λ h. IsWithin self.new h.kind h.payload) }
        ensures few { PutsOwn self.old self.new result }
        ensures grows { Grows self.old self.new }
    {
        let run = self.store_ops(ops)?;
        let payload = push_at(&mut self.lists, run)?;
        Ok(Held {
            kind: Kind::Expr,
            payload,
        })
    }

    /// Addresses in the linked program.
    fn store_ranges(&mut self, spans: &[Span]) -> Result<Held, NoMemory>
        requires { own_items self.old < 2 ^ 32 }
        ensures value { IfOk result (λ h. (form : ℕ) → held_value self.new h.kind form h.payload ≡ values.Ranges spans.now) }
        ensures within { IfOk result (λ h. IsWithin self.new h.kind h.payload) }
        ensures few { PutsOwn self.old self.new result }
        ensures grows { Grows self.old self.new }
    {
        let run = append(&mut self.spans, spans)?;
        let payload = push_at(&mut self.lists, run)?;
        Ok(Held {
            kind: Kind::Ranges,
            payload,
        })
    }

    /// A location list.
    fn store_locations(&mut self, items: &LocationsRef<'_>) -> Result<Held, NoMemory>
        requires { own_items self.old < 2 ^ 32 }
        ensures value { IfOk result (λ h. (form : ℕ) → held_value self.new h.kind form h.payload ≡ values.Locations items.now) }
        ensures within { IfOk result (λ h. IsWithin self.new h.kind h.payload) }
        ensures few { PutsOwn self.old self.new result }
        ensures grows { Grows self.old self.new }
    {
        let run = self.store_items(items)?;
        let payload = push_at(&mut self.lists, run)?;
        Ok(Held {
            kind: Kind::Locations,
            payload,
        })
    }

    /// Operations, each in a row.
    pub(crate) fn store_ops(&mut self, ops: &OpsRef<'_>) -> Result<Run, NoMemory>
        ensures rows { IfOk result (λ at. InRun self.new.ops at × (map (op_of self.new) (run_of self.new.ops at) ≡ ops.now) × All (OpWithin self.new) (run_of self.new.ops at)) }
        ensures few { AreAsMany self.old self.new }
        ensures grows { Grows self.old self.new }
        ensures others { self.new.items.items ≡ self.old.items.items }
    {
        let from = self.ops.len();
        for k in 0..ops.len() {
            self.store_op(&ops.op(k))?;
        }
        let to = self.ops.len();
        Ok(Run { from, to })
    }

    /// The row of an operation, behind the others.
    fn store_op(&mut self, op: &OpRef<'_>) -> Result<(), NoMemory>
        ensures row { OnOk result ((r : ARow) × (self.new.ops ≡ self.old.ops ++ r ∷ []) × (op_of self.new r ≡ op_seen op.now) × OpWithin self.new r) }
        ensures few { AreAsMany self.old self.new }
        ensures grows { Grows self.old self.new }
        ensures others { self.new.items.items ≡ self.old.items.items }
    {
        let (bytes, address) = self.store_parts(op.bytes, op.address)?;
        let inner = self.store_inner_ops(&op.inner)?;
        self.ops.push(OpRow {
            code: op.code,
            bytes,
            address,
            base: op.base,
            inner,
        })?;
        Ok(())
    }

    /// What a row of an operation cannot hold: its bytes, and its address if it has one.
    pub(crate) fn store_parts(
        &mut self,
        bytes: &[u8],
        address: Option<Place>,
    ) -> Result<(Run, Option<usize>), NoMemory>
        ensures value { IfOk result (λ at. (run_of self.new.bytes.items at.0 ≡ bytes.now) × (address_at self.new at.1 ≡ address)) }
        ensures within { IfOk result (λ at. InRun self.new.bytes.items at.0 × IsAddress self.new at.1) }
        ensures few { AreAsMany self.old self.new }
        ensures grows { Grows self.old self.new }
        ensures others { (self.new.ops ≡ self.old.ops) × (self.new.inner.items ≡ self.old.inner.items) × (self.new.items.items ≡ self.old.items.items) }
    {
        let bytes = append(&mut self.bytes, bytes)?;
        let address = self.store_field(address)?;
        Ok((bytes, address))
    }

    /// An address of an operation, if it has one.
    fn store_field(&mut self, address: Option<Place>) -> Result<Option<usize>, NoMemory>
        ensures value { IfOk result (λ at. address_at self.new at ≡ address) }
        ensures within { IfOk result (λ at. IsAddress self.new at) }
        ensures few { AreAsMany self.old self.new }
        ensures grows { Grows self.old self.new }
        ensures others { (self.new.bytes.items ≡ self.old.bytes.items) × (self.new.ops ≡ self.old.ops) × (self.new.inner.items ≡ self.old.inner.items) × (self.new.items.items ≡ self.old.items.items) }
    {
        match address {
            Some(place) => {
                let at = self.addresses.len();
                self.addresses.push(place)?;
                Ok(Some(at))
            }
            None => Ok(None),
        }
    }

    /// Operations inside an operation, each in a row.
    fn store_inner_ops(&mut self, ops: &InnerOpsRef<'_>) -> Result<Run, NoMemory>
        ensures rows { IfOk result (λ at. InRun self.new.inner.items at × (map (inner_of self.new) (run_of self.new.inner.items at) ≡ ops.now) × All (InnerWithin self.new) (run_of self.new.inner.items at)) }
        ensures few { AreAsMany self.old self.new }
        ensures grows { Grows self.old self.new }
        ensures others { (self.new.ops ≡ self.old.ops) × (self.new.items.items ≡ self.old.items.items) }
    {
        let from = self.inner.len();
        for k in 0..ops.len() {
            self.store_inner(&ops.op(k))?;
        }
        let to = self.inner.len();
        Ok(run_between(from, to))
    }

    /// The row of an operation inside another, behind the others.
    pub(crate) fn store_inner(&mut self, op: &InnerOpRef<'_>) -> Result<(), NoMemory>
        ensures row { OnOk result ((r : AnInner) × (self.new.inner.items ≡ self.old.inner.items ++ r ∷ []) × (inner_of self.new r ≡ inner_seen op.now) × InnerWithin self.new r) }
        ensures few { AreAsMany self.old self.new }
        ensures grows { Grows self.old self.new }
        ensures others { (self.new.ops ≡ self.old.ops) × (self.new.items.items ≡ self.old.items.items) }
        ensures unchanged { OnErr result (self.new.inner.items ≡ self.old.inner.items) }
    {
        let (bytes, address) = self.store_parts(op.bytes, op.address)?;
        self.inner.push(InnerRow {
            code: op.code,
            bytes,
            address,
            base: op.base,
        })?;
        Ok(())
    }

    /// Takes all out of the columns by which operations are put together. Their memory is kept.
    pub(crate) fn clear_ops(&mut self)
        ensures { self.new.inner.items ≡ [] }
    {
        self.bytes.clear();
        self.addresses.clear();
        self.inner.clear();
    }

    /// Items of a location list, each in a row.
    fn store_items(&mut self, items: &LocationsRef<'_>) -> Result<Run, NoMemory>
        ensures rows { IfOk result (λ at. InRun self.new.items.items at × (map (item_of self.new) (run_of self.new.items.items at) ≡ items.now) × All (ItemWithin self.new) (run_of self.new.items.items at)) }
        ensures few { AreAsMany self.old self.new }
        ensures grows { Grows self.old self.new }
    {
        let from = self.items.len();
        for k in 0..items.len() {
            self.store_item(&items.item(k))?;
        }
        let to = self.items.len();
        Ok(Run { from, to })
    }

    /// The row of an item of a location list, behind the others.
    fn store_item(&mut self, item: &LocationRef<'_>) -> Result<(), NoMemory>
        ensures row { OnOk result ((r : AnItem) × (self.new.items.items ≡ self.old.items.items ++ r ∷ []) × (item_of self.new r ≡ location_seen item.now) × ItemWithin self.new r) }
        ensures few { AreAsMany self.old self.new }
        ensures grows { Grows self.old self.new }
    {
        let ops = self.store_ops(&item.ops)?;
        self.items.push(ItemRow {
            span: item.span,
            ops,
        })?;
        Ok(())
    }
}

/// Whether a text stands at a place, and ends there before a zero byte.
fn stands_at(bytes: &[u8], place: u32, text: &[u8]) -> bool
    ensures { result ≡ true → text_of bytes.now place ≡ Some text.now }
{
    match text_in(bytes, place) {
        Some(found) => found == text,
        None => false,
    }
}

/// Whether a cell of this kind has an item in the column of addresses.
fn has_place(kind: Kind) -> bool
    ensures there { result ≡ true → kind ≡ kinds.Address }
    ensures none { result ≡ false → kind ≡ kinds.Address → ⊥ }
{
    match kind {
        Kind::Address => true,
        _ => false,
    }
}

/// Puts an item last, and answers its place for a cell, which holds it in 32 bits.
fn push_at<T: Copy + Drop>(column: &mut Vec<T>, item: T) -> Result<u32, NoMemory>
    requires { length column.old.items < 2 ^ 32 }
    ensures ok { IfOk result (λ at. (at ≡ length column.old.items) × (column.new.items ≡ column.old.items ++ item ∷ [])) }
    ensures unchanged { OnErr result (column.new.items ≡ column.old.items) }
{
    let at = column.len() as u32;
    column.push(item)?;
    Ok(at)
}
