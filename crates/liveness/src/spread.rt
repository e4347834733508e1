//! From the roots to the least set that holds them and what its entries need.

ghost use Rattle.std.specs.Prelude.{◌≡◌, ◌↔◌, ℕ, [], true, false, length, slice_index_or, OnOk, IfOk};
ghost use Rattle.dwarf_types.specs.Live.{IsLive};
ghost use Rattle.dwarf_types.specs.Sound.{IsSound};
ghost use Rattle.liveness.specs.ChildTable.{IsTable};
ghost use Rattle.liveness.specs.Marking.{Spread};

use crate::children::{Children, children_of};
use crate::mark::mark_all;
use crate::needs::find_needs;
use crate::roots::roots_of;
use ds_base::{BitRow, NoMemory};
use dwarf_types::Analysis;
use std::alloc::Global;

/// Which entries of an object are live: the least set that holds the roots and what each of its entries needs.
///
/// The row has one mark for each entry, at its number. This is decided for each object alone. Source: this project's
/// profile (docs/PROFILE.md, "Liveness").
pub fn live(alloc: Global, seen: &Analysis) -> Result<BitRow, NoMemory>
    requires { IsSound seen.now }
    ensures size { IfOk result (λ row. length row ≡ length seen.now.entries) }
    ensures exact { IfOk result (λ row. (k : ℕ) → (slice_index_or row k false ≡ true) ↔ IsLive seen.now.entries k) }
{
    let entries = &seen.entries;
    let mut row = BitRow::new(alloc, entries.len() as u32)?;
    let mut work = Vec::new(alloc);
    mark_all(&mut row, &mut work, &roots_of(alloc, entries)?)?;
    let children = children_of(alloc, entries)?;
    spread(alloc, seen, &children, &mut row, &mut work)?;
    Ok(row)
}

/// Marks what the marked entries need, until no entry waits.
fn spread(
    alloc: Global,
    seen: &Analysis,
    children: &Children,
    row: &mut BitRow,
    work: &mut Vec<u32>,
) -> Result<(), NoMemory>
    requires sound { IsSound seen.now }
    requires table { IsTable seen.now.entries (length seen.now.entries) children.now.last.items children.now.before.items }
    requires begun { Spread seen.now.entries row.old work.old.items }
    ensures { OnOk result (Spread seen.now.entries row.new []) }
{
    let entries = &seen.entries;
    let mut needs = Vec::new(alloc);
    while let Some(k) = work.pop() {
        find_needs(entries, children, k, &mut needs)?;
        mark_all(row, work, &needs)?;
    }
    Ok(())
}
