//! The children that the spelling of an entry reads, found without a search.

ghost use Rattle.std.specs.Prelude.{◌≡◌, ◌≤◌, ◌<◌, ◌^◌, ◌+◌, ◌||◌, Some, None, length, slice_get, slice_index_or, slice_set, IfOk};
ghost use Rattle.std.specs.Option.{ForSome, option_and_then, option_map_or};
ghost use Rattle.dwarf_types.specs.declared.entry.Entry.{Entry as AnEntry};
ghost use Rattle.dwarf_types.specs.Tree.{ParentsStandBefore};
ghost use Rattle.type_names.specs.Children.{IsListed, IsTableFrom, has_tag, holder, is_parameter, next_listed};

use ds_base::NoMemory;
use ds_base::dwarf::{DW_TAG_array_type, DW_TAG_formal_parameter, DW_TAG_unspecified_parameters};
use dwarf_types::{Entries, EntryRef};
use std::alloc::Global;

/// The children that the spelling of each entry reads, as chains in their order.
#[derive(Drop)]
pub(crate) struct Children {
    /// Of each entry, the number of the first.
    pub(crate) first: Vec<Option<u32>>,
    /// Of each of them, the number of the next one of the same parent.
    pub(crate) next: Vec<Option<u32>>,
}

/// The children that the spelling of each entry reads.
pub(crate) fn children_of(alloc: Global, entries: &Entries) -> Result<Children, NoMemory>
    requires few { length entries.now ≤ 2 ^ 24 }
    requires parents { ParentsStandBefore entries.now }
    ensures { IfOk result (λ children. IsTableFrom entries.now children.first.items children.next.items 0) }
{
    let mut first = vec![in alloc; None; entries.len()]?;
    let mut next = vec![in alloc; None; entries.len()]?;
    enter_all(&mut first, &mut next, entries);
    Ok(Children { first, next })
}

/// Enters the entries, from the last to the first.
fn enter_all(first: &mut [Option<u32>], next: &mut [Option<u32>], entries: &Entries)
    requires few { length entries.now ≤ 2 ^ 24 }
    requires parents { ParentsStandBefore entries.now }
    requires begun { IsTableFrom entries.now first.old next.old (length entries.now) }
    ensures { IsTableFrom entries.now first.new next.new 0 }
{
    let mut i = entries.len();
    while i > 0 {
        i -= 1;
        enter(first, next, holder_at(entries, i), i as u32);
    }
}

/// Puts an entry before the first of those that the spelling of its holder reads.
fn enter(first: &mut [Option<u32>], next: &mut [Option<u32>], holder: Option<u32>, k: u32)
    requires place { k < length next.old }
    requires holder { ForSome holder (λ p. p < length first.old) }
    ensures first { first.new ≡ option_map_or (λ p. slice_set first.old p (Some k)) holder first.old }
    ensures next { next.new ≡ option_map_or (λ p. slice_set next.old k (slice_index_or first.old p None)) holder next.old }
{
    if let Some(p) = holder {
        next[k as usize] = first[p as usize];
        first[p as usize] = Some(k);
    }
}

/// The entry whose spelling reads this one.
fn holder_at(entries: &Entries, i: usize) -> Option<u32>
    requires place { i < length entries.now }
    requires parents { ParentsStandBefore entries.now }
    ensures { (e : AnEntry) → slice_get entries.now i ≡ Some e → result ≡ holder entries.now e }
{
    let entry = entries.entry(i);
    let parent = entry.parent()?;
    if is_read(entries, &entry, parent) {
        Some(parent)
    } else {
        None
    }
}

/// Whether the spelling of its parent reads an entry.
fn is_read(entries: &Entries, entry: &EntryRef, parent: u32) -> bool
    requires { parent < length entries.now }
    ensures { result ≡ (is_parameter entry.now.tag || has_tag entries.now DW_TAG_array_type parent) }
{
    is_parameter(entry.tag()) || is_array(entries, parent)
}

/// Whether a tag is that of a parameter.
fn is_parameter(tag: u16) -> bool
    ensures { result ≡ is_parameter tag }
{
    matches!(tag, DW_TAG_formal_parameter | DW_TAG_unspecified_parameters)
}

/// Whether an entry is an array type.
fn is_array(entries: &Entries, k: u32) -> bool
    requires { k < length entries.now }
    ensures { result ≡ has_tag entries.now DW_TAG_array_type k }
{
    entries.entry(k as usize).tag() == DW_TAG_array_type
}

/// The first entry that the spelling of an entry reads.
pub(crate) fn first_listed(entries: &Entries, children: &Children, k: u32) -> Option<u32>
    requires place { k < length entries.now }
    requires table { IsTableFrom entries.now children.now.first.items children.now.next.items 0 }
    ensures { result ≡ next_listed entries.now k 0 }
{
    children.first[k as usize]
}

/// The entry that the spelling of entry `k` reads next, behind entry `j`.
pub(crate) fn next_listed(entries: &Entries, children: &Children, k: u32, j: u32) -> Option<u32>
    requires held { IsListed entries.now k j }
    requires table { IsTableFrom entries.now children.now.first.items children.now.next.items 0 }
    ensures { result ≡ next_listed entries.now k (j + 1) }
{
    children.next[j as usize]
}
