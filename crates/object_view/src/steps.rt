//! Steps over all attributes of an object, in document order.

ghost use Rattle.std.specs.Prelude.{◌≡◌, ◌<◌, ℕ, false, length, slice_get, slice_set, Ok, Some, IfOk, OnOk};
ghost use Rattle.std.specs.List.{All};
ghost use Rattle.ds_base.specs.Reading.{Gives};
ghost use Rattle.dwarf_types.specs.declared.entry.Attr.{Attr as AnAttr};
ghost use Rattle.dwarf_types.specs.declared.entry.Entry.{Entry as AnEntry};
ghost use Rattle.dwarf_types.specs.Plain.{is_offset};
ghost use Rattle.object_view.specs.Attributes.{attr_by, entry_by, entries_by, with_value};
ghost use Rattle.object_view.specs.Changes.{ChangesOffset, after, making};
ghost use Rattle.object_view.specs.Ready.{AllAttrs};

use crate::expressions::ExprRoom;
use ds_base::{List, NoMemory, ReadError};
use dwarf_types::{AttrRef, Entries, LocationList, NewValue, Span};
use std::alloc::Global;

/// What becomes of a value.
#[derive(Drop)]
pub(crate) enum Changed {
    Same,
    /// A range list.
    Ranges(List<Span>),
    /// A location list.
    Locations(LocationList),
}

/// What a step makes of the attributes of an object.
pub(crate) trait Step {
    ghost use Rattle.std.specs.Prelude.{ℕ, IfOk, Result};
    ghost use Rattle.ds_base.specs.declared.fault.Fault.{Fault as AFault};
    ghost use Rattle.dwarf_types.specs.Seen.{attr_seen};
    ghost use Rattle.dwarf_types.specs.declared.entry.Attr.{Attr as AnAttr};
    ghost use Rattle.dwarf_types.specs.declared.value.Value.{Value};
    ghost use Rattle.object_view.specs.Changes.{ChangesOffset, after};

    /// What must hold where the step is taken.
    ghost ready: { Self → Type 0 };

    /// What an attribute must keep to, by its entry's unit.
    ghost fits: { Self → ℕ → AnAttr → Type 0 };

    /// What the value of an attribute means, by its entry's unit.
    ghost meant: { Self → ℕ → AnAttr → Result Value AFault };

    /// What becomes of the value of an attribute, whose entry is of the unit of this number. `room` is for expressions.
    fn change(
        &self,
        alloc: Global,
        unit: u32,
        attr: &AttrRef<'_>,
        room: &mut ExprRoom,
    ) -> Result<Changed, ReadError>
        requires ready { ready self.now }
        requires fits { fits self.now unit (attr_seen attr.now) }
        ensures exact { Gives (after (attr_seen attr.now).value) result (meant self.now unit (attr_seen attr.now)) }
        ensures offset { IfOk result (ChangesOffset (attr_seen attr.now).value) };
}

/// Takes a step over all entries, in place. Only offsets mean something else than they say.
pub(crate) fn change_entries<S: Step>(
    alloc: Global,
    step: &S,
    entries: &mut Entries,
) -> Result<(), ReadError>
    requires ready { S.ready step.now }
    requires fits { AllAttrs (S.fits step.now) entries.old }
    requires others { (unit : ℕ) (a : AnAttr) → is_offset a.value ≡ false → S.meant step.now unit a ≡ Ok a.value }
    ensures { Gives (λ _. entries.new) result (entries_by (S.meant step.now) entries.old) }
{
    let mut room = ExprRoom::new(alloc);
    let changed = change_each(alloc, step, entries, &mut room);
    drop(room);
    changed
}

/// The same, with room for expressions.
fn change_each<S: Step>(
    alloc: Global,
    step: &S,
    entries: &mut Entries,
    room: &mut ExprRoom,
) -> Result<(), ReadError>
    requires ready { S.ready step.now }
    requires fits { AllAttrs (S.fits step.now) entries.old }
    requires others { (unit : ℕ) (a : AnAttr) → is_offset a.value ≡ false → S.meant step.now unit a ≡ Ok a.value }
    ensures { Gives (λ _. entries.new) result (entries_by (S.meant step.now) entries.old) }
{
    for i in 0..entries.len() {
        change_entry(alloc, step, entries, i, room)?;
    }
    Ok(())
}

/// Takes a step over the attributes of an entry, where one is an offset.
fn change_entry<S: Step>(
    alloc: Global,
    step: &S,
    entries: &mut Entries,
    i: usize,
    room: &mut ExprRoom,
) -> Result<(), ReadError>
    requires ready { S.ready step.now }
    requires within { i < length entries.old }
    requires fits { (e : AnEntry) → slice_get entries.old i ≡ Some e → All (S.fits step.now e.unit) e.attrs }
    requires others { (unit : ℕ) (a : AnAttr) → is_offset a.value ≡ false → S.meant step.now unit a ≡ Ok a.value }
    ensures { (e : AnEntry) → slice_get entries.old i ≡ Some e
        → Gives (λ _. entries.new) result (making (entry_by (S.meant step.now e.unit) e) (λ made. slice_set entries.old i made)) }
{
    let entry = entries.entry(i);
    if !entry.has_offset() {
        return Ok(());
    }
    let count = entry.len();
    for j in 0..count {
        change_attr(alloc, step, entries, i, j, room)?;
    }
    Ok(())
}

/// Takes a step over an attribute.
fn change_attr<S: Step>(
    alloc: Global,
    step: &S,
    entries: &mut Entries,
    i: usize,
    j: usize,
    room: &mut ExprRoom,
) -> Result<(), ReadError>
    requires ready { S.ready step.now }
    requires within { (e : AnEntry) × (slice_get entries.old i ≡ Some e) × (j < length e.attrs) }
    requires fits { (e : AnEntry) (a : AnAttr) → slice_get entries.old i ≡ Some e → slice_get e.attrs j ≡ Some a → S.fits step.now e.unit a }
    ensures { (e : AnEntry) (a : AnAttr) → slice_get entries.old i ≡ Some e → slice_get e.attrs j ≡ Some a
        → Gives (λ _. entries.new) result (making (attr_by (S.meant step.now e.unit) a) (λ b. slice_set entries.old i (record e { attrs = slice_set e.attrs j b }))) }
{
    let changed = changed_at(alloc, step, entries, i, j, room)?;
    put(entries, i, j, &changed)?;
    Ok(())
}

/// What becomes of the value at a place.
fn changed_at<S: Step>(
    alloc: Global,
    step: &S,
    entries: &Entries,
    i: usize,
    j: usize,
    room: &mut ExprRoom,
) -> Result<Changed, ReadError>
    requires ready { S.ready step.now }
    requires within { (e : AnEntry) × (slice_get entries.now i ≡ Some e) × (j < length e.attrs) }
    requires fits { (e : AnEntry) (a : AnAttr) → slice_get entries.now i ≡ Some e → slice_get e.attrs j ≡ Some a → S.fits step.now e.unit a }
    ensures exact { (e : AnEntry) (a : AnAttr) → slice_get entries.now i ≡ Some e → slice_get e.attrs j ≡ Some a
        → Gives (after a.value) result (S.meant step.now e.unit a) }
    ensures offset { (e : AnEntry) (a : AnAttr) → slice_get entries.now i ≡ Some e → slice_get e.attrs j ≡ Some a → IfOk result (ChangesOffset a.value) }
{
    let entry = entries.entry(i);
    step.change(alloc, entry.unit(), &entry.attr(j), room)
}

/// Another value for an attribute.
fn put(entries: &mut Entries, i: usize, j: usize, changed: &Changed) -> Result<(), NoMemory>
    requires within { (e : AnEntry) × (slice_get entries.old i ≡ Some e) × (j < length e.attrs) }
    requires offset { (e : AnEntry) (a : AnAttr) → slice_get entries.old i ≡ Some e → slice_get e.attrs j ≡ Some a → ChangesOffset a.value changed.now }
    ensures { (e : AnEntry) (a : AnAttr) → slice_get entries.old i ≡ Some e → slice_get e.attrs j ≡ Some a
        → OnOk result (entries.new ≡ slice_set entries.old i (record e { attrs = slice_set e.attrs j (with_value a (after a.value changed.now)) })) }
{
    match changed {
        Changed::Same => Ok(()),
        Changed::Ranges(spans) => entries.set(i, j, NewValue::Ranges(spans.as_slice())),
        Changed::Locations(items) => entries.set(i, j, NewValue::Locations(items.as_ref())),
    }
}
