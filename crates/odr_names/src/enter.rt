//! The pooled entries of an object, entered into the book.

ghost use Rattle.std.specs.Prelude.{◌≡◌, ◌||◌, is_some, ◌+◌, ◌≤◌, ◌<◌, ◌^◌, ℕ, ◌-◌, List, true, length, slice_get, slice_index_or, Some, None, IfOk, OnOk};
ghost use Rattle.std.specs.Option.{ForSome, option_and_then};
ghost use Rattle.dwarf_types.specs.declared.entry.Entry.{Entry as AnEntry};
ghost use Rattle.dwarf_types.specs.Tree.{ParentsStandBefore};
ghost use Rattle.odr_names.specs.declared.path_book.Row.{Row as ARow};
ghost use Rattle.odr_names.specs.Book.{AreRows};
ghost use Rattle.odr_names.specs.Entering.{AreEntered, AreLiveParents, Enters, hash_above, new_row, private_above, rows_up};
ghost use Rattle.odr_names.specs.Pieces.{parts_seen};
ghost use Rattle.odr_names.specs.Twins.{twins_before, wants_ordinal};
ghost use Rattle.type_names.specs.Entries.{is_declaration};
ghost use Rattle.type_names.specs.Heads.{Object, is_pooled};
ghost use Rattle.type_names.specs.Objects.{object_of};
ghost use Rattle.type_names.specs.Pooled.{AreNames};
ghost use Rattle.type_names.specs.Tree.{parent_of};

use crate::hash::hash_piece;
use crate::ordinals::ordinal_at;
use crate::path_book::Row;
use crate::piece::{PartsRef, PieceRef, parts_at};
use crate::row_numbers::RowNumbers;
use ds_base::{BitRow, NoMemory};
use dwarf_types::Analysis;
use std::alloc::Global;
use type_names::{TypeNames, is_declaration};

/// Enters an entry, where it is pooled, and gives the number of its row.
pub(crate) fn enter_entry(
    seen: &Analysis,
    live: &BitRow,
    names: &TypeNames,
    object: u32,
    counts: &[u32],
    numbers: &RowNumbers,
    rows: &mut Vec<Row>,
    k: u32,
) -> Result<Option<u32>, NoMemory>
    requires place { k < length seen.now.entries }
    requires parents { ParentsStandBefore seen.now.entries }
    requires names { AreNames (object_of seen.now live.now) names.now }
    requires len { length counts.now ≡ length seen.now.entries }
    requires counts { (j : ℕ) → j < length seen.now.entries → wants_ordinal object (object_of seen.now live.now) j ≡ true
        → slice_index_or counts.now j 0 ≡ twins_before object (object_of seen.now live.now) j }
    requires counted { object < 2 ^ 16 }
    requires known { length numbers.now ≡ k }
    requires numbers { (x : ℕ) → option_and_then (λ p. slice_index_or numbers.now p None) (parent_of seen.now.entries k) ≡ Some x → x < length rows.old.items }
    requires few { length rows.old.items < 2 ^ 25 }
    ensures { (e : AnEntry) → slice_get seen.now.entries k ≡ Some e
        → IfOk result (Enters object (object_of seen.now live.now) k e (option_and_then (λ p. slice_index_or numbers.now p None) (parent_of seen.now.entries k)) rows.old.items rows.new.items) }
{
    if !names.pooled.get(k) {
        return Ok(None);
    }
    let number = rows.len();
    let parent = number_of(numbers, seen.entries.entry(k as usize).parent());
    let row = row_of(seen, live, names, object, counts, rows, parent, k);
    rows.push(row)?;
    Ok(Some(number as u32))
}

/// The number of the parent's row, if it has one.
fn number_of(numbers: &RowNumbers, parent: Option<u32>) -> Option<u32>
    requires { ForSome parent (λ p. p < length numbers.now) }
    ensures { result ≡ option_and_then (λ p. slice_index_or numbers.now p None) parent }
{
    numbers.get(parent?)
}

/// The row of a pooled entry below another row, or at the top.
fn row_of(
    seen: &Analysis,
    live: &BitRow,
    names: &TypeNames,
    object: u32,
    counts: &[u32],
    rows: &[Row],
    parent: Option<u32>,
    k: u32,
) -> Row
    requires place { k < length seen.now.entries }
    requires parents { ParentsStandBefore seen.now.entries }
    requires names { AreNames (object_of seen.now live.now) names.now }
    requires pooled { is_pooled (object_of seen.now live.now) k ≡ true }
    requires len { length counts.now ≡ length seen.now.entries }
    requires counts { (j : ℕ) → j < length seen.now.entries → wants_ordinal object (object_of seen.now live.now) j ≡ true
        → slice_index_or counts.now j 0 ≡ twins_before object (object_of seen.now live.now) j }
    requires counted { object < 2 ^ 16 }
    requires few { length rows.now < 2 ^ 25 }
    requires parent { ForSome parent (λ p. p < length rows.now) }
    ensures { (e : AnEntry) → slice_get seen.now.entries k ≡ Some e
        → result ≡ new_row object (object_of seen.now live.now) k e rows.now parent }
{
    let entry = seen.entries.entry(k as usize);
    let parts = parts_at(seen, live, names, object, k);
    let ordinal = ordinal_at(seen, live, object, counts, &parts, k);
    let piece = PieceRef { parts, ordinal };
    Row {
        hash: hash_piece(hash_above(rows, parent), &piece),
        entry: k,
        ordinal,
        up: rows_up(rows.len() as u32, parent),
        object: object as u16,
        declared: is_declaration(&entry),
        private: private_below(rows, parent, &parts),
    }
}

/// How many rows before row `x` that of its parent stands, or 0.
fn rows_up(x: u32, parent: Option<u32>) -> u32
    requires { ForSome parent (λ p. p < x) }
    ensures { result ≡ rows_up x parent }
{
    match parent {
        Some(p) => x - p,
        None => 0,
    }
}

/// The hash of the path of the row above, or of no path.
fn hash_above(rows: &[Row], parent: Option<u32>) -> u64
    requires { ForSome parent (λ p. p < length rows.now) }
    ensures { result ≡ hash_above rows.now parent }
{
    match parent {
        Some(p) => rows[p as usize].hash,
        None => 0,
    }
}

/// Whether a path that goes on from the row above, or from no path, with a piece of these parts has a piece that only its
/// own object and entry tell apart.
fn private_below(rows: &[Row], parent: Option<u32>, parts: &PartsRef) -> bool
    requires { ForSome parent (λ p. p < length rows.now) }
    ensures { result ≡ (is_some (parts_seen parts.now).private || private_above rows.now parent) }
{
    parts.private.is_some() || private_above(rows, parent)
}

/// Whether the path of the row above has a piece that only its own object and entry tell apart.
fn private_above(rows: &[Row], parent: Option<u32>) -> bool
    requires { ForSome parent (λ p. p < length rows.now) }
    ensures { result ≡ private_above rows.now parent }
{
    match parent {
        Some(p) => rows[p as usize].private,
        None => false,
    }
}

/// Enters the pooled entries of an object.
pub(crate) fn enter_entries(
    alloc: Global,
    seen: &Analysis,
    live: &BitRow,
    names: &TypeNames,
    object: u32,
    counts: &[u32],
    rows: &mut Vec<Row>,
) -> Result<(), NoMemory>
    requires few { length seen.now.entries ≤ 2 ^ 24 }
    requires counted { (1 ≤ object) × (object < 2 ^ 16) }
    requires parents { ParentsStandBefore seen.now.entries }
    requires live_parents { AreLiveParents (object_of seen.now live.now) }
    requires names { AreNames (object_of seen.now live.now) names.now }
    requires len { length counts.now ≡ length seen.now.entries }
    requires counts { (j : ℕ) → j < length seen.now.entries → wants_ordinal object (object_of seen.now live.now) j ≡ true
        → slice_index_or counts.now j 0 ≡ twins_before object (object_of seen.now live.now) j }
    requires rows { length rows.old.items + length seen.now.entries < 2 ^ 25 }
    ensures few { OnOk result (length rows.new.items < 2 ^ 25) }
    ensures all { (objects : List Object) → slice_get objects (object - 1) ≡ Some (object_of seen.now live.now) → AreRows objects rows.old.items
        → OnOk result (AreEntered objects object (object_of seen.now live.now) rows.old.items rows.new.items) }
{
    let mut numbers = RowNumbers::with_capacity(alloc, seen.entries.len())?;
    for i in 0..seen.entries.len() {
        let number = enter_entry(seen, live, names, object, counts, &numbers, rows, i as u32)?;
        numbers.push(number)?;
    }
    Ok(())
}
