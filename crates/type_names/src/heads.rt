//! Heads: the types that are merged with those of the same name in other objects.

ghost use Rattle.std.specs.Prelude.{◌≡◌, ◌≤◌, ◌<◌, ◌^◌, ◌&&◌, ◌||◌, not, true, false, length, slice_get, Some, is_some, IfOk, codes};
ghost use Rattle.dwarf_types.specs.Tree.{ParentsStandBefore};
ghost use Rattle.type_names.specs.Spell.{made_by};
ghost use Rattle.std.specs.List.{list_all, list_any};
ghost use Rattle.std.specs.Option.{ForSome, option_map_or};
ghost use Rattle.type_names.specs.Entries.{holds, is_named_type, is_type, name_of};
ghost use Rattle.type_names.specs.HeadRows.{AreRows, template_of};
ghost use Rattle.type_names.specs.Heads.{has_one_definition, has_template_parameter, is_clean, is_common, is_derived, is_derived_at_top, is_derived_attribute, is_in_named_head, is_named_head, is_open_namespace, is_plain_derived, is_reached, takes_part, tells};
ghost use Rattle.type_names.specs.Objects.{AreInUnits, object_of};
ghost use Rattle.type_names.specs.Rows.{IsRow};
ghost use Rattle.type_names.specs.Tree.{is_at_top, is_marked, parent_of};

use crate::entries::{
    has_field, holds, is_made_up, is_named_type, is_template_parameter, is_tied, is_type, name_of,
};
use crate::tree::{is_within, mark, marked_below};
use ds_base::dwarf::{
    DW_AT_byte_size, DW_AT_containing_type, DW_AT_prototyped, DW_AT_sibling, DW_AT_type,
    DW_LANG_C_plus_plus, DW_LANG_C_plus_plus_03, DW_LANG_C_plus_plus_11, DW_LANG_C_plus_plus_14,
    DW_LANG_ObjC_plus_plus, DW_TAG_array_type, DW_TAG_atomic_type, DW_TAG_base_type,
    DW_TAG_const_type, DW_TAG_namespace, DW_TAG_pointer_type, DW_TAG_ptr_to_member_type,
    DW_TAG_reference_type, DW_TAG_restrict_type, DW_TAG_rvalue_reference_type,
    DW_TAG_subroutine_type, DW_TAG_unspecified_type, DW_TAG_volatile_type,
};
use ds_base::{BitRow, NoMemory};
use dwarf_types::{Analysis, Entries, EntryRef, InUnit};
use std::alloc::Global;

/// Rows of an object from which its heads are told.
#[derive(Drop)]
pub(crate) struct HeadRows {
    /// The entries that are tied to their unit.
    pub(crate) tied: BitRow,
    /// The entries below which one is tied.
    pub(crate) tied_below: BitRow,
    /// The entries that are open namespaces, as are all above them but the unit.
    pub(crate) namespaces: BitRow,
    /// The entries with a parameter of a template among their children.
    pub(crate) template: BitRow,
}

/// The rows of an object.
pub(crate) fn rows_of(alloc: Global, entries: &Entries) -> Result<HeadRows, NoMemory>
    requires few { length entries.now ≤ 2 ^ 24 }
    requires parents { ParentsStandBefore entries.now }
    ensures { IfOk result (λ rows. AreRows entries.now rows) }
{
    let mut tied = BitRow::new(alloc, entries.len() as u32)?;
    let mut namespaces = BitRow::new(alloc, entries.len() as u32)?;
    let mut template = BitRow::new(alloc, entries.len() as u32)?;
    for i in 0..entries.len() {
        let entry = entries.entry(i);
        let is_tied = is_tied(&entry);
        let open = is_open(&entry, &namespaces);
        tied.set_if(i as u32, is_tied);
        namespaces.set_if(i as u32, open);
        mark(&mut template, template_of(&entry));
    }
    let tied_below = marked_below(alloc, entries, &tied)?;
    Ok(HeadRows {
        tied,
        tied_below,
        namespaces,
        template,
    })
}

/// Whether an entry is a unit, or an open namespace in entries that are open.
fn is_open(entry: &EntryRef, row: &BitRow) -> bool
    requires { ForSome entry.now.parent (λ p. p < length row.now) }
    ensures { result ≡ option_map_or (λ p. is_marked row.now p && is_open_namespace entry.now) entry.now.parent true }
{
    match entry.parent() {
        Some(p) => row.get(p) && is_open_namespace(entry),
        None => true,
    }
}

/// Whether an entry is a named namespace that is not tied to its unit.
fn is_open_namespace(entry: &EntryRef) -> bool
    ensures { result ≡ is_open_namespace entry.now }
{
    entry.tag() == DW_TAG_namespace && name_of(entry).is_some() && !has_field(entry)
}

/// The template of which an entry is a parameter.
fn template_of(entry: &EntryRef) -> Option<u32>
    ensures { result ≡ template_of entry.now }
{
    if is_template_parameter(entry.tag()) {
        entry.parent()
    } else {
        None
    }
}

/// Whether no entry of a subtree is tied to its unit.
pub(crate) fn is_clean(seen: &Analysis, live: &BitRow, rows: &HeadRows, k: u32) -> bool
    requires place { k < length seen.now.entries }
    requires parents { ParentsStandBefore seen.now.entries }
    requires rows { AreRows seen.now.entries rows.now }
    ensures { result ≡ is_clean (object_of seen.now live.now) k }
{
    !is_spoilt(rows, k)
}

/// Whether an entry is tied to its unit, or one below it.
fn is_spoilt(rows: &HeadRows, k: u32) -> bool
    requires { (k < length rows.now.tied) × (k < length rows.now.tied_below) }
    ensures { result ≡ (is_marked rows.now.tied k || is_marked rows.now.tied_below k) }
{
    rows.tied.get(k) || rows.tied_below.get(k)
}

/// The entries that need no spelling to be told.
#[derive(Drop)]
pub(crate) struct NamedRows {
    /// The named heads.
    pub(crate) named: BitRow,
    /// The types that mean the same in every object.
    pub(crate) common: BitRow,
}

/// Of each entry, whether it is a named head, and whether it is a type that means the same in every object.
pub(crate) fn named_of(
    alloc: Global,
    seen: &Analysis,
    live: &BitRow,
    rows: &HeadRows,
) -> Result<NamedRows, NoMemory>
    requires few { length seen.now.entries ≤ 2 ^ 24 }
    requires live { length live.now ≡ length seen.now.entries }
    requires units { AreInUnits seen.now }
    requires parents { ParentsStandBefore seen.now.entries }
    requires rows { AreRows seen.now.entries rows.now }
    ensures named { IfOk result (λ rows. IsRow (is_named_head (object_of seen.now live.now)) (length seen.now.entries) rows.named) }
    ensures common { IfOk result (λ rows. IsRow (is_common (object_of seen.now live.now)) (length seen.now.entries) rows.common) }
{
    let mut named = BitRow::new(alloc, seen.entries.len() as u32)?;
    let mut in_named = BitRow::new(alloc, seen.entries.len() as u32)?;
    let mut common = BitRow::new(alloc, seen.entries.len() as u32)?;
    for i in 0..seen.entries.len() {
        let k = i as u32;
        let entry = seen.entries.entry(i);
        let head = is_named_head(seen, live, rows, k);
        let inside = is_within(head, &in_named, entry.parent());
        let means_same = is_common(seen, live, inside, k);
        named.set_if(k, head);
        in_named.set_if(k, inside);
        common.set_if(k, means_same);
    }
    Ok(NamedRows { named, common })
}

/// Whether an entry is a named head: a type that is told by its name and by namespaces alone.
#[tactic(auto, unfolding(crate::specs::Heads::is_named_head))]
fn is_named_head(seen: &Analysis, live: &BitRow, rows: &HeadRows, k: u32) -> bool
    requires place { k < length seen.now.entries }
    requires live { length live.now ≡ length seen.now.entries }
    requires units { AreInUnits seen.now }
    requires parents { ParentsStandBefore seen.now.entries }
    requires rows { AreRows seen.now.entries rows.now }
    ensures { result ≡ is_named_head (object_of seen.now live.now) k }
{
    let entry = seen.entries.entry(k as usize);
    if may_be_named_head(seen, live, rows, k, &entry) {
        return is_told(seen, live, rows, k, &entry);
    }
    false
}

/// Whether an entry is a named head where it can be told by its name. That is seen without its name.
fn may_be_named_head(
    seen: &Analysis,
    live: &BitRow,
    rows: &HeadRows,
    k: u32,
    entry: &EntryRef,
) -> bool
    requires stands { slice_get seen.now.entries k ≡ Some entry.now }
    requires live { length live.now ≡ length seen.now.entries }
    requires units { AreInUnits seen.now }
    requires parents { ParentsStandBefore seen.now.entries }
    requires rows { AreRows seen.now.entries rows.now }
    ensures { result ≡ (is_type entry.now.tag && (takes_part (object_of seen.now live.now) k entry.now && (is_reached seen.now.entries k entry.now && is_clean (object_of seen.now live.now) k))) }
{
    is_type(entry.tag())
        && takes_part(seen, live, k, entry)
        && is_reached(seen, rows, k, entry)
        && is_clean(seen, live, rows, k)
}

/// Whether an entry is live, and its unit takes part in merging.
pub(crate) fn takes_part(seen: &Analysis, live: &BitRow, k: u32, entry: &EntryRef) -> bool
    requires place { k < length live.now }
    requires unit { entry.now.unit < length seen.now.units }
    ensures { result ≡ takes_part (object_of seen.now live.now) k entry.now }
{
    live.get(k) && is_in_merged_unit(seen, entry)
}

/// Whether the unit of an entry takes part in merging.
fn is_in_merged_unit(seen: &Analysis, entry: &EntryRef) -> bool
    requires { entry.now.unit < length seen.now.units }
    ensures { result ≡ option_map_or (λ unit. has_one_definition unit.language) (slice_get seen.now.units entry.now.unit) false }
{
    has_one_definition(seen.units.as_slice()[entry.unit() as usize].language)
}

/// Whether the types of a language have one definition in the whole program: C++ and Objective-C++.
fn has_one_definition(language: u16) -> bool
    ensures { result ≡ has_one_definition language }
{
    matches!(
        language,
        DW_LANG_C_plus_plus
            | DW_LANG_ObjC_plus_plus
            | DW_LANG_C_plus_plus_03
            | DW_LANG_C_plus_plus_11
            | DW_LANG_C_plus_plus_14
    )
}

/// Whether one of some units takes part in merging.
pub(crate) fn has_merged_unit(units: &[InUnit]) -> bool
    ensures { result ≡ list_any (λ unit. has_one_definition unit.language) units.now }
{
    units.iter().any(|unit| has_one_definition(unit.language))
}

/// Whether an entry can be told by its name.
fn is_told(seen: &Analysis, live: &BitRow, rows: &HeadRows, k: u32, entry: &EntryRef) -> bool
    requires place { k < length seen.now.entries }
    requires rows { AreRows seen.now.entries rows.now }
    ensures { result ≡ option_map_or (tells (object_of seen.now live.now) k) (name_of entry.now) false }
{
    match name_of(entry) {
        Some(name) => tells(seen, live, rows, k, name),
        None => false,
    }
}

/// Whether a type can be told by a name. A template is told by a name with its arguments alone.
fn tells(seen: &Analysis, live: &BitRow, rows: &HeadRows, k: u32, name: &[u8]) -> bool
    requires place { k < length seen.now.entries }
    requires rows { AreRows seen.now.entries rows.now }
    ensures { result ≡ tells (object_of seen.now live.now) k name.now }
{
    !is_made_up(name) && has_its_arguments(seen, rows, k, name)
}

/// Whether a type is no template, or its name has arguments.
fn has_its_arguments(seen: &Analysis, rows: &HeadRows, k: u32, name: &[u8]) -> bool
    requires place { k < length seen.now.entries }
    requires rows { AreRows seen.now.entries rows.now }
    ensures { result ≡ (holds (codes "<") name.now || not (has_template_parameter seen.now.entries k)) }
{
    if has_template_parameter(&seen.entries, rows, k) {
        return holds(b"<", name);
    }
    true
}

/// Whether a child of an entry is a parameter of a template.
fn has_template_parameter(entries: &Entries, rows: &HeadRows, k: u32) -> bool
    requires place { k < length entries.now }
    requires rows { AreRows entries.now rows.now }
    ensures { result ≡ has_template_parameter entries.now k }
{
    rows.template.get(k)
}

/// Whether the parent of an entry is the unit, or is reached by open namespaces alone.
fn is_reached(seen: &Analysis, rows: &HeadRows, k: u32, entry: &EntryRef) -> bool
    requires stands { slice_get seen.now.entries k ≡ Some entry.now }
    requires parents { ParentsStandBefore seen.now.entries }
    requires rows { AreRows seen.now.entries rows.now }
    ensures { result ≡ is_reached seen.now.entries k entry.now }
{
    match entry.parent() {
        Some(p) => rows.namespaces.get(p),
        None => false,
    }
}

/// Whether an entry is a type that means the same in every object.
fn is_common(seen: &Analysis, live: &BitRow, inside: bool, k: u32) -> bool
    requires place { k < length seen.now.entries }
    requires parents { ParentsStandBefore seen.now.entries }
    requires inside { inside ≡ is_in_named_head (object_of seen.now live.now) k }
    ensures { result ≡ is_common (object_of seen.now live.now) k }
{
    let entry = seen.entries.entry(k as usize);
    entry.tag() == DW_TAG_base_type
        || entry.tag() == DW_TAG_unspecified_type
        || is_named_inside(inside, &entry)
        || is_plain_derived(&seen.entries, &entry)
}

/// Whether an entry stands in the subtree of a named head, and is a type with a name.
fn is_named_inside(inside: bool, entry: &EntryRef) -> bool
    ensures { result ≡ (is_named_type entry.now && inside) }
{
    if inside {
        return is_named_type(entry);
    }
    false
}

/// Whether an entry is a derived type below its unit of which nothing else is told.
fn is_plain_derived(entries: &Entries, entry: &EntryRef) -> bool
    requires { ForSome entry.now.parent (λ p. p < length entries.now) }
    ensures { result ≡ is_plain_derived entries.now entry.now }
{
    is_derived_at_top(entries, entry) && has_derived_attributes(entry)
}

/// Whether an entry is a derived type whose parent is the unit.
pub(crate) fn is_derived_at_top(entries: &Entries, entry: &EntryRef) -> bool
    requires { ForSome entry.now.parent (λ p. p < length entries.now) }
    ensures { result ≡ is_derived_at_top entries.now entry.now }
{
    is_derived(entry.tag()) && is_at_top(entries, entry)
}

/// Whether the tag is that of a type that is made of others.
fn is_derived(tag: u16) -> bool
    ensures { result ≡ is_derived tag }
{
    is_made(tag)
        || tag == DW_TAG_ptr_to_member_type
        || tag == DW_TAG_array_type
        || tag == DW_TAG_subroutine_type
}

/// Whether the tag is that of a type that is made of one other.
fn is_made(tag: u16) -> bool
    ensures { result ≡ is_some (made_by tag) }
{
    match tag {
        DW_TAG_pointer_type => true,
        DW_TAG_reference_type => true,
        DW_TAG_rvalue_reference_type => true,
        DW_TAG_const_type => true,
        DW_TAG_volatile_type => true,
        DW_TAG_restrict_type => true,
        DW_TAG_atomic_type => true,
        _ => false,
    }
}

/// Whether the parent of an entry is its unit.
fn is_at_top(entries: &Entries, entry: &EntryRef) -> bool
    requires { ForSome entry.now.parent (λ p. p < length entries.now) }
    ensures { result ≡ is_at_top entries.now entry.now }
{
    match entry.parent() {
        Some(p) => is_root(entries, p),
        None => false,
    }
}

/// Whether an entry is a unit.
fn is_root(entries: &Entries, k: u32) -> bool
    requires { k < length entries.now }
    ensures { result ≡ (is_some (slice_get entries.now k) && not (is_some (parent_of entries.now k))) }
{
    entries.entry(k as usize).parent().is_none()
}

/// Whether an entry has no attributes but those that every derived type may have.
fn has_derived_attributes(entry: &EntryRef) -> bool
    ensures { result ≡ list_all (λ a. is_derived_attribute a.name) entry.now.attrs }
{
    for j in 0..entry.len() {
        if !is_derived_attribute(entry.attr(j).name) {
            return false;
        }
    }
    true
}

/// Whether every derived type may have an attribute of this name.
fn is_derived_attribute(name: u16) -> bool
    ensures { result ≡ is_derived_attribute name }
{
    matches!(
        name,
        DW_AT_sibling | DW_AT_byte_size | DW_AT_containing_type | DW_AT_prototyped | DW_AT_type
    )
}
