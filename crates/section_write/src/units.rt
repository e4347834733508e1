//! All units, in turn or by several threads.

ghost use Rattle.std.specs.Prelude.{◌≡◌, ◌+◌, ◌<◌, ◌≤◌, ◌^◌, ℕ, length, Ok};
ghost use Rattle.std.specs.Thread.{IsSync};
ghost use Rattle.dwarf_types.specs.declared.graph.Graph.{Graph};
ghost use Rattle.dwarf_types.specs.Encode.{info_section};
ghost use Rattle.section_write.specs.Emitting.{Fills, IsSizeOf};
ghost use Rattle.layout.specs.Laid.{IsMeasured, Measures};

use crate::unit::add_unit;
use layout::{Layout, drafts};
use std::thread::{Threads, join_mut};

/// Writes all units, one behind the other, into a room of their size, by at most `workers` threads.
///
/// Each thread writes neighbours, and about as many bytes as any other, as far as whole units allow. What no thread can
/// be started for is written in the caller's.
pub(crate) fn emit_units<R: Threads + Sync>(rt: &R, workers: u32, layout: &Layout, room: &mut [u8])
    requires measured { IsMeasured layout.now }
    requires size { length room.old ≡ layout.now.ends.info }
    ensures { (graph : Graph) → Measures graph (Ok layout.now) → room.new ≡ info_section graph }
{
    let count = count_of(layout, room.len());
    fill_units(rt, workers, layout, 0, count, room);
}

/// How many units there are. All have so many bytes.
fn count_of(layout: &Layout, bytes: usize) -> u32
    requires measured { IsMeasured layout.now }
    requires bytes { bytes ≡ layout.now.ends.info }
    ensures all { result ≡ length layout.now.drafts }
    ensures size { IsSizeOf layout.now 0 result bytes }
{
    drafts(layout).len() as u32
}

/// Writes the units from `first` up to `end` into a room of their size, by at most so many threads.
#[cycle(fillers)]
fn fill_units<R: Threads + Sync>(
    rt: &R,
    workers: u32,
    layout: &Layout,
    first: u32,
    end: u32,
    room: &mut [u8],
)
    requires { IsSizeOf layout.now first end (length room.old) }
    ensures { Fills layout.now first end room.new }
{
    if workers < 2 || end - first < 2 {
        fill_in_turn(layout, first, end, room);
        return;
    }
    let behind = workers / 2;
    let before = workers - behind;
    let share = room.len() / workers as usize * before as usize;
    let cut = cut_at(layout, first, end, share);
    let (front, back) = room.split_at_mut(cut.bytes);
    fill_both(
        rt, before, behind, layout, first, cut.unit, end, front, back,
    );
}

/// Writes the units from `first` up to `middle` by `before` threads, and beside them those up to `end` by `behind`.
#[cycle(fillers)]
fn fill_both<R: Threads + Sync>(
    rt: &R,
    before: u32,
    behind: u32,
    layout: &Layout,
    first: u32,
    middle: u32,
    end: u32,
    front: &mut [u8],
    back: &mut [u8],
)
    requires workers { (1 ≤ before) × (1 ≤ behind) }
    requires front { IsSizeOf layout.now first middle (length front.old) }
    requires back { IsSizeOf layout.now middle end (length back.old) }
    ensures front { Fills layout.now first middle front.new }
    ensures back { Fills layout.now middle end back.new }
{
    let mut fill_front = ||
        requires { IsSync R.row × IsSizeOf layout.now first middle (length front.now) }
        ensures { Fills layout.entry.now first middle front.exit.now }
    { fill_units(rt, before, layout, first, middle, front) };
    let mut fill_back = ||
        requires { IsSync R.row × IsSizeOf layout.now middle end (length back.now) }
        ensures { Fills layout.entry.now middle end back.exit.now }
    { fill_units(rt, behind, layout, middle, end, back) };
    join_mut(rt, &mut fill_front, &mut fill_back);
}

/// Writes the units from `first` up to `end` into a room of their size, one after the other.
fn fill_in_turn(layout: &Layout, first: u32, end: u32, room: &mut [u8])
    requires { IsSizeOf layout.now first end (length room.old) }
    ensures { Fills layout.now first end room.new }
{
    let drafts = drafts(layout);
    let mut at = 0;
    for unit in first..end {
        at = add_unit(layout, unit, drafts[unit as usize].len as usize, room, at);
    }
}

/// Where a row of units is cut in two.
#[derive(Clone, Copy)]
struct Cut {
    /// The first unit behind the cut.
    unit: u32,
    /// The bytes of the units before it.
    bytes: usize,
}

/// Where the units from `first` up to `end` are cut so that as near to `share` bytes as whole units allow stand before.
fn cut_at(layout: &Layout, first: u32, end: u32, share: usize) -> Cut
    requires { (size : ℕ) × (size < 2 ^ 64) × IsSizeOf layout.now first end size }
    ensures inside { result.unit ≤ end }
    ensures before { IsSizeOf layout.now first result.unit result.bytes }
{
    let drafts = drafts(layout);
    let mut bytes = 0;
    for unit in first..end {
        let len = drafts[unit as usize].len as usize;
        // A unit stands before the cut if less than half of it is too much there.
        if bytes + len / 2 >= share {
            return Cut { unit, bytes };
        }
        bytes += len;
    }
    Cut { unit: end, bytes }
}
