//! Entries that have a node in their own unit.

ghost use Rattle.std.specs.Prelude.{◌≡◌, ◌≤◌, ◌<◌, ◌^◌, ◌&&◌, ◌||◌, ◌==◌, not, length, IfOk};
ghost use Rattle.ds_base.specs.DwarfNumbers.{DW_TAG_namespace as the_namespace};
ghost use Rattle.dwarf_types.specs.Kept.{is_plain, kept_of};
ghost use Rattle.dwarf_types.specs.Tree.{ParentsStandBefore};
ghost use Rattle.type_names.specs.Rows.{IsRow};
ghost use Rattle.type_names.specs.Tree.{is_marked};

use ds_base::dwarf::DW_TAG_namespace;
use ds_base::{BitRow, NoMemory};
use dwarf_types::{Entries, EntryRef};
use std::alloc::Global;
use type_names::marked_below;

/// Which entries of an object have a node in their own unit, by its live entries and those that are merged.
///
/// A merged namespace has one where a live entry below it is not merged.
pub(crate) fn kept_row(
    alloc: Global,
    entries: &Entries,
    live: &BitRow,
    merged: &BitRow,
) -> Result<BitRow, NoMemory>
    requires few { length entries.now ≤ 2 ^ 24 }
    requires parents { ParentsStandBefore entries.now }
    requires live { length live.now ≡ length entries.now }
    requires merged { length merged.now ≡ length entries.now }
    ensures { IfOk result (λ row. row ≡ kept_of entries.now live.now merged.now) }
{
    let plain = plain_row(alloc, entries, live, merged)?;
    let above = marked_below(alloc, entries, &plain)?;
    let mut row = BitRow::new(alloc, entries.len() as u32)?;
    for i in 0..entries.len() {
        let kept = is_kept(&entries.entry(i), &plain, merged, &above, i as u32);
        row.set_if(i as u32, kept);
    }
    Ok(row)
}

/// The live entries that are not merged.
fn plain_row(
    alloc: Global,
    entries: &Entries,
    live: &BitRow,
    merged: &BitRow,
) -> Result<BitRow, NoMemory>
    requires few { length entries.now ≤ 2 ^ 24 }
    requires live { length live.now ≡ length entries.now }
    requires merged { length merged.now ≡ length entries.now }
    ensures { IfOk result (λ row. IsRow (is_plain entries.now live.now merged.now) (length entries.now) row) }
{
    let mut row = BitRow::new(alloc, entries.len() as u32)?;
    for i in 0..entries.len() {
        let plain = live.get(i as u32) && !merged.get(i as u32);
        row.set_if(i as u32, plain);
    }
    Ok(row)
}

/// Whether an entry is plain, or a merged namespace above a plain entry.
fn is_kept(entry: &EntryRef, plain: &BitRow, merged: &BitRow, above: &BitRow, k: u32) -> bool
    requires { (k < length plain.now) × (k < length merged.now) × (k < length above.now) }
    ensures { result ≡ (is_marked plain.now k || (is_marked merged.now k && (entry.now.tag == the_namespace && is_marked above.now k))) }
{
    plain.get(k) || (merged.get(k) && (entry.tag() == DW_TAG_namespace && above.get(k)))
}
