//! Which entries of an object are pooled, and the spelled texts of their pieces.

ghost use Rattle.std.specs.Prelude.{◌≡◌, ◌≤◌, ◌<◌, ◌^◌, ◌&&◌, ◌||◌, ℕ, List, Option, [], true, false, length, slice_get, is_some, Some, None, IfOk, replicate, if◌then◌else◌};
ghost use Rattle.dwarf_types.specs.Sound.{IsSound};
ghost use Rattle.dwarf_types.specs.Tree.{ParentsStandBefore};
ghost use Rattle.type_names.specs.Children.{IsTableFrom};
ghost use Rattle.type_names.specs.HeadRows.{AreRows};
ghost use Rattle.type_names.specs.Heads.{derived_name, may_be_derived, is_common, is_head, is_in_head, is_named_head, is_pooled};
ghost use Rattle.type_names.specs.Objects.{AreInUnits, ReferToEntries, object_of};
ghost use Rattle.type_names.specs.Onto.{AreTypes, Writes, may_open};
ghost use Rattle.type_names.specs.Paths.{is_overloaded};
ghost use Rattle.type_names.specs.Pooled.{AreNames, IsToldTo, text_if};
ghost use Rattle.type_names.specs.Rows.{IsRow};
ghost use Rattle.type_names.specs.Spell.{spelled_parameters, spelling};
ghost use Rattle.type_names.specs.Tree.{is_marked, parent_of};

use crate::children::{Children, children_of};
use crate::entries::linkage_of;
use crate::heads::{
    HeadRows, has_merged_unit, is_clean, is_derived_at_top, named_of, rows_of, takes_part,
};
use crate::spell::{SpellError, Types, write_parameters, write_type};
use crate::text_table::TextTable;
use crate::tree::{is_within, marked_below, parent_of};
use ds_base::dwarf::DW_TAG_subprogram;
use ds_base::{BitRow, NoMemory};
use dwarf_types::{Analysis, Entries, EntryRef};
use std::alloc::Global;

/// What is told of an object's names.
#[derive(Drop)]
pub struct TypeNames {
    /// The pooled entries: those that are merged with entries of other objects.
    pub pooled: BitRow,
    /// The entries in the subtrees of heads, live or not.
    pub in_heads: BitRow,
    /// Of each of these, the spelled text of its piece.
    pub spelled: TextTable,
}

/// Which entries of an object are pooled, and the spelled texts of the pieces of their paths.
///
/// `live` marks the live entries. Source: this project's profile (docs/PROFILE.md, "Names and the pool").
pub fn type_names(alloc: Global, seen: &Analysis, live: &BitRow) -> Result<TypeNames, NoMemory>
    requires sound { IsSound seen.now }
    requires live { length live.now ≡ length seen.now.entries }
    ensures { IfOk result (λ names. AreNames (object_of seen.now live.now) names) }
{
    names_of(alloc, seen, live)
}

/// The same, for an analysis of which this much is known. Where no unit takes part in merging, the entries are not looked at.
fn names_of(alloc: Global, seen: &Analysis, live: &BitRow) -> Result<TypeNames, NoMemory>
    requires few { length seen.now.entries ≤ 2 ^ 24 }
    requires units { AreInUnits seen.now }
    requires parents { ParentsStandBefore seen.now.entries }
    requires refer { ReferToEntries seen.now.entries }
    requires live { length live.now ≡ length seen.now.entries }
    ensures { IfOk result (λ names. AreNames (object_of seen.now live.now) names) }
{
    if !has_merged_unit(seen.units.as_slice()) {
        return no_names(alloc, seen.entries.len());
    }
    let entries = &seen.entries;
    let rows = rows_of(alloc, entries)?;
    let named = named_of(alloc, seen, live, &rows)?;
    let children = children_of(alloc, entries)?;
    let told = told_of(
        alloc,
        seen,
        live,
        &rows,
        &named.named,
        &named.common,
        &children,
    )?;
    let pooled = pooled_of(alloc, seen, live, &told.heads, &told.in_heads)?;
    Ok(TypeNames {
        pooled,
        in_heads: told.in_heads,
        spelled: told.spelled,
    })
}

/// What is told of an object where nothing is merged: no entry is pooled, and no text is spelled.
fn no_names(alloc: Global, count: usize) -> Result<TypeNames, NoMemory>
    requires { count ≤ 2 ^ 24 }
    ensures pooled { IfOk result (λ names. names.pooled ≡ replicate count false) }
    ensures in_heads { IfOk result (λ names. names.in_heads ≡ replicate count false) }
    ensures spelled { IfOk result (λ names. names.spelled ≡ replicate count None) }
{
    Ok(TypeNames {
        pooled: BitRow::new(alloc, count as u32)?,
        in_heads: BitRow::new(alloc, count as u32)?,
        spelled: TextTable::missing(alloc, count)?,
    })
}

/// What is told of an object's heads.
#[derive(Drop)]
struct HeadsTold {
    /// The heads.
    heads: BitRow,
    /// The entries in their subtrees.
    in_heads: BitRow,
    /// Of each of these, the spelled text of its piece.
    spelled: TextTable,
}

/// Which entries are heads, which stand in the subtrees of heads, and the spelled texts of these.
fn told_of(
    alloc: Global,
    seen: &Analysis,
    live: &BitRow,
    rows: &HeadRows,
    named: &BitRow,
    common: &BitRow,
    children: &Children,
) -> Result<HeadsTold, NoMemory>
    requires few { length seen.now.entries ≤ 2 ^ 24 }
    requires live { length live.now ≡ length seen.now.entries }
    requires units { AreInUnits seen.now }
    requires parents { ParentsStandBefore seen.now.entries }
    requires refer { ReferToEntries seen.now.entries }
    requires rows { AreRows seen.now.entries rows.now }
    requires named { IsRow (is_named_head (object_of seen.now live.now)) (length seen.now.entries) named.now }
    requires common { IsRow (is_common (object_of seen.now live.now)) (length seen.now.entries) common.now }
    requires table { IsTableFrom seen.now.entries children.now.first.items children.now.next.items 0 }
    ensures { IfOk result (λ told. IsToldTo (object_of seen.now live.now) told.heads told.in_heads told.spelled (length seen.now.entries)) }
{
    let common = Types {
        alloc,
        entries: &seen.entries,
        children,
        may_open: Some(common),
    };
    let all = Types {
        alloc,
        entries: &seen.entries,
        children,
        may_open: None,
    };
    tell_all(alloc, seen, live, rows, named, &common, &all)
}

/// The same, where types are spelled by `common` in the spellings of heads, and by `all` in parameters.
///
/// An entry stands behind those above it, so one walk tells of each whether it is a head, whether one stands above it, and
/// what it spells.
fn tell_all(
    alloc: Global,
    seen: &Analysis,
    live: &BitRow,
    rows: &HeadRows,
    named: &BitRow,
    common: &Types,
    all: &Types,
) -> Result<HeadsTold, NoMemory>
    requires few { length seen.now.entries ≤ 2 ^ 24 }
    requires live { length live.now ≡ length seen.now.entries }
    requires units { AreInUnits seen.now }
    requires parents { ParentsStandBefore seen.now.entries }
    requires rows { AreRows seen.now.entries rows.now }
    requires named { IsRow (is_named_head (object_of seen.now live.now)) (length seen.now.entries) named.now }
    requires types { AreTypes common.now }
    requires entries { common.now.entries.now ≡ seen.now.entries }
    requires common { (k : ℕ) → k < length seen.now.entries → may_open common.now k ≡ is_common (object_of seen.now live.now) k }
    requires all_types { AreTypes all.now }
    requires all_entries { all.now.entries.now ≡ seen.now.entries }
    requires all { (k : ℕ) → may_open all.now k ≡ true }
    ensures { IfOk result (λ told. IsToldTo (object_of seen.now live.now) told.heads told.in_heads told.spelled (length seen.now.entries)) }
{
    let mut heads = BitRow::new(alloc, seen.entries.len() as u32)?;
    let mut in_heads = BitRow::new(alloc, seen.entries.len() as u32)?;
    let mut spelled = TextTable::with_capacity(alloc, seen.entries.len())?;
    let mut out = Vec::new(alloc);
    for i in 0..seen.entries.len() {
        let k = i as u32;
        let entry = seen.entries.entry(i);
        out.clear();
        let derived = spell_derived(seen, live, rows, common, k, &entry, &mut out)?;
        let head = is_head(named, k, derived);
        let inside = is_within(head, &in_heads, entry.parent());
        heads.set_if(k, head);
        in_heads.set_if(k, inside);
        let there = spell_piece(all, k, &entry, inside, derived, &mut out)?;
        spelled.push(&out, there)?;
    }
    Ok(HeadsTold {
        heads,
        in_heads,
        spelled,
    })
}

/// Spells an entry, where it is a derived head.
#[tactic(auto, unfolding(crate::specs::Heads::derived_name))]
fn spell_derived(
    seen: &Analysis,
    live: &BitRow,
    rows: &HeadRows,
    types: &Types,
    k: u32,
    entry: &EntryRef,
    out: &mut Vec<u8>,
) -> Result<bool, NoMemory>
    requires stands { slice_get seen.now.entries k ≡ Some entry.now }
    requires place { k < length seen.now.entries }
    requires live { length live.now ≡ length seen.now.entries }
    requires units { AreInUnits seen.now }
    requires parents { ParentsStandBefore seen.now.entries }
    requires rows { AreRows seen.now.entries rows.now }
    requires types { AreTypes types.now }
    requires entries { types.now.entries.now ≡ seen.now.entries }
    requires common { (k : ℕ) → k < length seen.now.entries → may_open types.now k ≡ is_common (object_of seen.now live.now) k }
    requires empty { out.old.items ≡ [] }
    ensures { IfOk result (λ there. text_if there out.new.items ≡ derived_name (object_of seen.now live.now) k) }
{
    if !may_be_derived(seen, live, rows, k, entry) {
        return Ok(false);
    }
    spell(types, k, out)
}

/// Whether an entry is a derived head where it can be spelled.
fn may_be_derived(seen: &Analysis, live: &BitRow, rows: &HeadRows, k: u32, entry: &EntryRef) -> bool
    requires stands { slice_get seen.now.entries k ≡ Some entry.now }
    requires place { k < length seen.now.entries }
    requires live { length live.now ≡ length seen.now.entries }
    requires units { AreInUnits seen.now }
    requires parents { ParentsStandBefore seen.now.entries }
    requires rows { AreRows seen.now.entries rows.now }
    ensures { result ≡ may_be_derived (object_of seen.now live.now) k entry.now }
{
    takes_part(seen, live, k, entry)
        && is_derived_at_top(&seen.entries, entry)
        && is_clean(seen, live, rows, k)
}

/// Spells a type, where it can be spelled.
fn spell(types: &Types, k: u32, out: &mut Vec<u8>) -> Result<bool, NoMemory>
    requires types { AreTypes types.now }
    requires place { k < length types.now.entries.now }
    requires empty { out.old.items ≡ [] }
    ensures { IfOk result (λ there. text_if there out.new.items ≡ spelling (may_open types.now) types.now.entries.now k) }
{
    told(write_type(types, 64, k, out))
}

/// Spells the parameters of a subprogram, where all can be spelled.
fn spell_parameters(types: &Types, k: u32, out: &mut Vec<u8>) -> Result<bool, NoMemory>
    requires types { AreTypes types.now }
    requires place { k < length types.now.entries.now }
    requires all { (k : ℕ) → may_open types.now k ≡ true }
    requires empty { out.old.items ≡ [] }
    ensures { IfOk result (λ there. text_if there out.new.items ≡ spelled_parameters types.now.entries.now k) }
{
    told(write_parameters(types, 64, k, out))
}

/// Whether a text was written.
fn told(outcome: Result<(), SpellError>) -> Result<bool, NoMemory>
    ensures { (new : List ℕ) (text : Option (List ℕ)) → Writes outcome new text → IfOk result (λ there. text_if there new ≡ text) }
{
    match outcome {
        Ok(()) => Ok(true),
        Err(SpellError::Cannot) => Ok(false),
        Err(SpellError::NoMemory) => Err(NoMemory),
    }
}

/// Whether an entry is a named head, or has a name as a derived head.
fn is_head(named: &BitRow, k: u32, derived: bool) -> bool
    requires { k < length named.now }
    ensures { result ≡ (is_marked named.now k || derived) }
{
    named.get(k) || derived
}

/// Of each entry, whether it is pooled: it is live and in the subtree of a head, or stands above a head.
fn pooled_of(
    alloc: Global,
    seen: &Analysis,
    live: &BitRow,
    heads: &BitRow,
    in_heads: &BitRow,
) -> Result<BitRow, NoMemory>
    requires few { length seen.now.entries ≤ 2 ^ 24 }
    requires live { length live.now ≡ length seen.now.entries }
    requires parents { ParentsStandBefore seen.now.entries }
    requires heads { IsRow (is_head (object_of seen.now live.now)) (length seen.now.entries) heads.now }
    requires in_heads { IsRow (is_in_head (object_of seen.now live.now)) (length seen.now.entries) in_heads.now }
    ensures { IfOk result (λ row. IsRow (is_pooled (object_of seen.now live.now)) (length seen.now.entries) row) }
{
    let above = marked_below(alloc, &seen.entries, heads)?;
    let mut row = BitRow::new(alloc, seen.entries.len() as u32)?;
    for i in 0..seen.entries.len() {
        let pooled = is_pooled(&seen.entries, live, in_heads, &above, i as u32);
        row.set_if(i as u32, pooled);
    }
    Ok(row)
}

/// Whether an entry is live and in the subtree of a head, or stands above a head and is no unit.
fn is_pooled(entries: &Entries, live: &BitRow, in_heads: &BitRow, above: &BitRow, k: u32) -> bool
    requires place { k < length entries.now }
    requires rows { (length live.now ≡ length entries.now) × (length in_heads.now ≡ length entries.now) × (length above.now ≡ length entries.now) }
    ensures { result ≡ ((is_marked live.now k && is_marked in_heads.now k) || (is_some (parent_of entries.now k) && is_marked above.now k)) }
{
    (live.get(k) && in_heads.get(k)) || is_below_unit_and(entries, above, k)
}

/// Whether an entry is no unit, and is marked.
fn is_below_unit_and(entries: &Entries, above: &BitRow, k: u32) -> bool
    requires { (k < length entries.now) × (k < length above.now) }
    ensures { result ≡ (is_some (parent_of entries.now k) && is_marked above.now k) }
{
    parent_of(entries, k).is_some() && above.get(k)
}

/// Spells the parameters of an entry in the subtree of a head that only they tell apart. What another one spells is its
/// spelling as a derived head, which is written where it is one.
fn spell_piece(
    types: &Types,
    k: u32,
    entry: &EntryRef,
    inside: bool,
    derived: bool,
    out: &mut Vec<u8>,
) -> Result<bool, NoMemory>
    requires types { AreTypes types.now }
    requires place { k < length types.now.entries.now }
    requires all { (k : ℕ) → may_open types.now k ≡ true }
    ensures { IfOk result (λ there. text_if there out.new.items ≡ if inside && is_overloaded entry.now then spelled_parameters types.now.entries.now k else text_if derived out.old.items) }
{
    if inside && is_overloaded(entry) {
        out.clear();
        return spell_parameters(types, k, out);
    }
    Ok(derived)
}

/// Whether only its parameters tell a subprogram apart: it has no linkage name.
fn is_overloaded(entry: &EntryRef) -> bool
    ensures { result ≡ is_overloaded entry.now }
{
    entry.tag() == DW_TAG_subprogram && linkage_of(entry).is_none()
}
