//! Merged entries: which entries of an object they are, and where references to them lead.

ghost use Rattle.std.specs.Prelude.{◌≡◌, ◌≤◌, ◌<◌, ◌^◌, length, IfOk};
ghost use Rattle.std.specs.List.{All};
ghost use Rattle.dwarf_types.specs.Sound.{IsSound};
ghost use Rattle.link_graph.specs.OwnShapes.{IsOwnShape};
ghost use Rattle.link_graph.specs.Passes.{kept_with, merged_by, names_between, path_target, put_each};
ghost use Rattle.link_graph.specs.PoolOrder.{AreNodes};

use crate::kept::kept_row;
use crate::object::{ObjectShape, kept_shape};
use crate::unit::target_in;
use ds_base::{BitRow, NoMemory};
use dwarf_types::{Analysis, Target};
use odr_names::{PathBook, occurrence};
use std::alloc::Global;

/// What an object gives to the shape of a link, where the names from `from` on up to `end` are those of its merged entries.
///
/// Where there are none, its live entries are those that are kept. `object` is the object's number from 0.
pub(crate) fn merged_shape(
    alloc: Global,
    object: u32,
    seen: &Analysis,
    live: &BitRow,
    names: &PathBook,
    from: u32,
    end: u32,
) -> Result<ObjectShape, NoMemory>
    requires few { object < 2 ^ 16 }
    requires sound { IsSound seen.now }
    requires live { length live.now ≡ length seen.now.entries }
    requires within { (from ≤ end) × (end ≤ length names.now) }
    requires entries { All (λ w. w.entry < length seen.now.entries) (names_between names.now from end) }
    ensures { IfOk result (IsOwnShape object (kept_with seen.now live.now (names_between names.now from end))) }
{
    if from == end {
        return kept_shape(alloc, object, seen, live);
    }
    let merged = merged_row(alloc, seen.entries.len() as u32, names, from, end)?;
    let kept = kept_row(alloc, &seen.entries, live, &merged)?;
    kept_shape(alloc, object, seen, &kept)
}

/// A row for so many entries that marks those of the names from `from` on up to `end`.
fn merged_row(
    alloc: Global,
    entries: u32,
    names: &PathBook,
    from: u32,
    end: u32,
) -> Result<BitRow, NoMemory>
    requires within { (from ≤ end) × (end ≤ length names.now) }
    requires entries { All (λ w. w.entry < entries) (names_between names.now from end) }
    ensures { IfOk result (λ row. row ≡ merged_by entries (names_between names.now from end)) }
{
    let mut row = BitRow::new(alloc, entries)?;
    for x in from..end {
        row.set(occurrence(names, x).entry);
    }
    Ok(row)
}

/// Lets references to the entries of the names from `from` on up to `end` lead to the nodes of their paths.
///
/// `nodes` tells the node of the path of each name, at its winner.
pub(crate) fn lead_to_paths(
    images: &mut [Option<Target>],
    names: &PathBook,
    winners: &[u32],
    nodes: &[Option<u32>],
    from: u32,
    end: u32,
)
    requires within { (from ≤ end) × (end ≤ length names.now) }
    requires nodes { AreNodes names.now winners.now nodes.now }
    requires entries { All (λ w. w.entry < length images.old) (names_between names.now from end) }
    ensures { images.new ≡ put_each (path_target names.now) (names_between names.now from end) images.old }
{
    for x in from..end {
        let entry = occurrence(names, x).entry;
        let target = target_in(0, nodes[winners[x as usize] as usize]);
        images[entry as usize] = target;
    }
}
