//! The entries of `__debug_info`, understood one after the other.

ghost use Rattle.std.specs.Prelude.{◌≡◌, ◌<◌, ℕ, List, length, slice_get, slice_set, Some, IfOk, OnOk};
ghost use Rattle.std.specs.List.{All};
ghost use Rattle.std.specs.Slice.Iter.{iter_rest};
ghost use Rattle.ds_base.specs.Reading.{Gives};
ghost use Rattle.dwarf_types.specs.declared.entry.RawAttr.{RawAttr as ARawAttr};
ghost use Rattle.dwarf_types.specs.declared.entry.RawEntry.{RawEntry as ARawEntry};
ghost use Rattle.unit_tree.specs.Targets.{target_in, targets_in};
ghost use Rattle.object_view.specs.Attributes.{raw_attr_by, raw_entry_by, raw_entries_by};
ghost use Rattle.object_view.specs.Changes.{MayBe, making, understood_as};
ghost use Rattle.object_view.specs.Infos.{FitsInfo, IsReadyInfo, info_value};
ghost use Rattle.object_view.specs.Numbers.{AreNumbers, LeadTo, behind};
ghost use Rattle.object_view.specs.Ready.{AllRawAttrs};

use crate::attributes::{Understood, understand_value};
use crate::expressions::{ExprRoom, Expressions};
use ds_base::{NoMemory, ReadError};
use dwarf_types::{NewValue, Ops, RawEntries};
use std::alloc::Global;
use std::slice::Iter;

/// Understands all entries, in place. `numbers` are those of the entries to which their references lead, in document
/// order; `places` are the places of all entries.
pub(crate) fn understand_entries(
    alloc: Global,
    expressions: &Expressions,
    numbers: &[u32],
    entries: &mut RawEntries,
) -> Result<(), ReadError>
    ghost places: { List ℕ }
    requires ready { IsReadyInfo expressions.now }
    requires fits { AllRawAttrs (FitsInfo expressions.now places) entries.old }
    requires numbers { AreNumbers places entries.old numbers.now }
    ensures { Gives (λ _. entries.new) result (raw_entries_by (info_value expressions.now places) entries.old) }
{
    let mut room = ExprRoom::new(alloc);
    let understood = understand_each(expressions, numbers, entries, &mut room);
    drop(room);
    understood
}

/// The same, with room for expressions.
fn understand_each(
    expressions: &Expressions,
    numbers: &[u32],
    entries: &mut RawEntries,
    room: &mut ExprRoom,
) -> Result<(), ReadError>
    ghost places: { List ℕ }
    requires ready { IsReadyInfo expressions.now }
    requires fits { AllRawAttrs (FitsInfo expressions.now places) entries.old }
    requires numbers { AreNumbers places entries.old numbers.now }
    ensures { Gives (λ _. entries.new) result (raw_entries_by (info_value expressions.now places) entries.old) }
{
    let mut left = numbers.iter();
    for i in 0..entries.len() {
        understand_entry(expressions, entries, i, &mut left, room)?;
    }
    Ok(())
}

/// Understands the attributes of an entry. Its references take the first of `numbers`.
fn understand_entry(
    expressions: &Expressions,
    entries: &mut RawEntries,
    i: usize,
    numbers: &mut Iter<'_, u32>,
    room: &mut ExprRoom,
) -> Result<(), ReadError>
    ghost places: { List ℕ }
    requires ready { IsReadyInfo expressions.now }
    requires within { i < length entries.old }
    requires fits { (e : ARawEntry) → slice_get entries.old i ≡ Some e → All (FitsInfo expressions.now places e.unit) e.attrs }
    requires numbers { (e : ARawEntry) → slice_get entries.old i ≡ Some e → LeadTo places (targets_in e.attrs) (iter_rest numbers.old) }
    ensures exact { (e : ARawEntry) → slice_get entries.old i ≡ Some e
        → Gives (λ _. entries.new) result (making (raw_entry_by (info_value expressions.now places e.unit) e) (λ made. slice_set entries.old i made)) }
    ensures taken { (e : ARawEntry) → slice_get entries.old i ≡ Some e → OnOk result (iter_rest numbers.new ≡ behind (targets_in e.attrs) (iter_rest numbers.old)) }
{
    let count = entries.entry(i).len();
    for j in 0..count {
        understand_attr(expressions, entries, i, j, numbers, room)?;
    }
    Ok(())
}

/// Understands an attribute.
fn understand_attr(
    expressions: &Expressions,
    entries: &mut RawEntries,
    i: usize,
    j: usize,
    numbers: &mut Iter<'_, u32>,
    room: &mut ExprRoom,
) -> Result<(), ReadError>
    ghost places: { List ℕ }
    requires ready { IsReadyInfo expressions.now }
    requires within { (e : ARawEntry) × (slice_get entries.old i ≡ Some e) × (j < length e.attrs) }
    requires fits { (e : ARawEntry) (a : ARawAttr) → slice_get entries.old i ≡ Some e → slice_get e.attrs j ≡ Some a → FitsInfo expressions.now places e.unit a }
    requires numbers { (e : ARawEntry) (a : ARawAttr) → slice_get entries.old i ≡ Some e → slice_get e.attrs j ≡ Some a → LeadTo places (target_in a.value) (iter_rest numbers.old) }
    ensures exact { (e : ARawEntry) (a : ARawAttr) → slice_get entries.old i ≡ Some e → slice_get e.attrs j ≡ Some a
        → Gives (λ _. entries.new) result (making (raw_attr_by (info_value expressions.now places e.unit) a) (λ b. slice_set entries.old i (record e { attrs = slice_set e.attrs j b }))) }
    ensures taken { (e : ARawEntry) (a : ARawAttr) → slice_get entries.old i ≡ Some e → slice_get e.attrs j ≡ Some a → OnOk result (iter_rest numbers.new ≡ behind (target_in a.value) (iter_rest numbers.old)) }
{
    let understood = understood_at(expressions, entries, i, j, numbers, room)?;
    put(entries, i, j, understood, &room.meant)?;
    Ok(())
}

/// What becomes of the value at a place. The operations of an expression are put into `room`, and a reference takes the
/// next of `numbers`.
fn understood_at(
    expressions: &Expressions,
    entries: &RawEntries,
    i: usize,
    j: usize,
    numbers: &mut Iter<'_, u32>,
    room: &mut ExprRoom,
) -> Result<Understood, ReadError>
    ghost places: { List ℕ }
    requires ready { IsReadyInfo expressions.now }
    requires within { (e : ARawEntry) × (slice_get entries.now i ≡ Some e) × (j < length e.attrs) }
    requires fits { (e : ARawEntry) (a : ARawAttr) → slice_get entries.now i ≡ Some e → slice_get e.attrs j ≡ Some a → FitsInfo expressions.now places e.unit a }
    requires numbers { (e : ARawEntry) (a : ARawAttr) → slice_get entries.now i ≡ Some e → slice_get e.attrs j ≡ Some a → LeadTo places (target_in a.value) (iter_rest numbers.old) }
    ensures exact { (e : ARawEntry) (a : ARawAttr) → slice_get entries.now i ≡ Some e → slice_get e.attrs j ≡ Some a
        → Gives (understood_as room.new.meant.ops a.value) result (info_value expressions.now places e.unit a) }
    ensures taken { (e : ARawEntry) (a : ARawAttr) → slice_get entries.now i ≡ Some e → slice_get e.attrs j ≡ Some a → OnOk result (iter_rest numbers.new ≡ behind (target_in a.value) (iter_rest numbers.old)) }
    ensures becomes { (e : ARawEntry) (a : ARawAttr) → slice_get entries.now i ≡ Some e → slice_get e.attrs j ≡ Some a → IfOk result (MayBe room.new.meant.ops a.value) }
{
    let entry = entries.entry(i);
    if entry.is_plain(j) {
        return Ok(Understood::Same);
    }
    understand_value(expressions, entry.unit(), &entry.attr(j), numbers, room)
}

/// Another value for an attribute, where the operations of an expression are those of `ops`.
fn put(
    entries: &mut RawEntries,
    i: usize,
    j: usize,
    understood: Understood,
    ops: &Ops,
) -> Result<(), NoMemory>
    requires within { (e : ARawEntry) × (slice_get entries.old i ≡ Some e) × (j < length e.attrs) }
    requires becomes { (e : ARawEntry) (a : ARawAttr) → slice_get entries.old i ≡ Some e → slice_get e.attrs j ≡ Some a → MayBe ops.now.ops a.value understood }
    ensures { (e : ARawEntry) (a : ARawAttr) → slice_get entries.old i ≡ Some e → slice_get e.attrs j ≡ Some a
        → OnOk result (entries.new ≡ slice_set entries.old i (record e { attrs = slice_set e.attrs j (record a { value = understood_as ops.now.ops a.value understood }) })) }
{
    match understood {
        Understood::Same => Ok(()),
        Understood::Address(place) => entries.set(i, j, NewValue::Address(place)),
        Understood::Ref(number) => entries.set(i, j, NewValue::Ref(number)),
        Understood::Expr => entries.set(i, j, NewValue::Expr(ops.as_ref())),
    }
}
