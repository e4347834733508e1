//! Marks over the trees of an object: whether an entry stands in a marked subtree, and what stands above a marked one.

ghost use Rattle.std.specs.Prelude.{◌≡◌, ◌≤◌, ◌<◌, ◌^◌, ◌↔◌, ◌||◌, ℕ, true, false, length, slice_set, IfOk};
ghost use Rattle.std.specs.Option.{ForSome, option_map_or};
ghost use Rattle.dwarf_types.specs.Tree.{ParentsStandBefore};
ghost use Rattle.type_names.specs.Tree.{HasMarkedBelow, IsPassedTo, is_marked, parent_of, passed_up};

use ds_base::{BitRow, NoMemory};
use dwarf_types::Entries;
use std::alloc::Global;

/// Whether an entry passes, or its parent is marked.
pub(crate) fn is_within(passes: bool, row: &BitRow, parent: Option<u32>) -> bool
    requires { ForSome parent (λ p. p < length row.now) }
    ensures { result ≡ (passes || option_map_or (is_marked row.now) parent false) }
{
    match parent {
        Some(p) => passes || row.get(p),
        None => passes,
    }
}

/// Of each entry, whether an entry below it is marked.
pub fn marked_below(alloc: Global, entries: &Entries, marks: &BitRow) -> Result<BitRow, NoMemory>
    requires few { length entries.now ≤ 2 ^ 24 }
    requires parents { ParentsStandBefore entries.now }
    requires len { length marks.now ≡ length entries.now }
    ensures len { IfOk result (λ row. length row ≡ length entries.now) }
    ensures exact { IfOk result (λ row. (a : ℕ) → (is_marked row a ≡ true) ↔ HasMarkedBelow entries.now marks.now a) }
{
    let mut row = BitRow::new(alloc, entries.len() as u32)?;
    pass_all(&mut row, entries, marks);
    Ok(row)
}

/// Marks the parents of entries that are marked, from the last entry to the first, so that each mark goes all the way up.
fn pass_all(row: &mut BitRow, entries: &Entries, marks: &BitRow)
    requires few { length entries.now ≤ 2 ^ 24 }
    requires parents { ParentsStandBefore entries.now }
    requires len { length marks.now ≡ length entries.now }
    requires begun { IsPassedTo entries.now marks.now row.old (length entries.now) }
    ensures { IsPassedTo entries.now marks.now row.new 0 }
{
    let mut i = entries.len();
    while i > 0 {
        i -= 1;
        pass_up(row, marks, parent_of(entries, i as u32), i as u32);
    }
}

/// The parent of an entry.
pub(crate) fn parent_of(entries: &Entries, k: u32) -> Option<u32>
    requires { k < length entries.now }
    ensures { result ≡ parent_of entries.now k }
{
    entries.entry(k as usize).parent()
}

/// Marks the parent of an entry that is marked, or below which one is.
fn pass_up(row: &mut BitRow, marks: &BitRow, parent: Option<u32>, k: u32)
    requires place { (k < length marks.now) × (k < length row.old) }
    requires parent { ForSome parent (λ p. p < length row.old) }
    ensures { row.new ≡ passed_up row.old marks.now parent k }
{
    if marks.get(k) || row.get(k) {
        mark(row, parent);
    }
}

/// Marks an entry, where there is one.
pub(crate) fn mark(row: &mut BitRow, k: Option<u32>)
    requires { ForSome k (λ p. p < length row.old) }
    ensures { row.new ≡ option_map_or (λ p. slice_set row.old p true) k row.old }
{
    if let Some(k) = k {
        row.set(k);
    }
}
