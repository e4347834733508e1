//! Batches of units that are drafted beside each other, and the analyses that go between them.

ghost use Rattle.std.specs.Prelude.{◌≡◌, ◌<◌, ◌≤◌, ◌^◌, ◌+◌, ◌-◌, List as Listed, length};
ghost use Rattle.dwarf_types.specs.declared.analysis.Analysis.{Analysis as Seen};
ghost use Rattle.clone_units.specs.Units.{object_of};
ghost use Rattle.unit_drafts.specs.Drafting.{AreLeft, first_needed};

use clone_units::object_of;
use dwarf_types::{Analysis, Shape};
use object_reads::no_entries;
use std::alloc::Global;

/// So many units at least are in a batch for each worker beside the first.
const UNITS_EACH: u64 = 32;

/// Where the batch that begins with a unit ends.
///
/// It is so long that workers seldom wait for each other at its end: it has many units for each, and so many nodes as
/// if each worker had its greatest unit. One worker waits for nobody, so that its batches are single units.
pub(crate) fn batch_end(shape: &Shape, first: u32, workers: u32) -> u32
    requires few { length shape.now.units < 2 ^ 32 - 1 }
    requires there { first < length shape.now.units }
    ensures { (first < result) × (result ≤ length shape.now.units) }
{
    let units = shape.units.as_slice();
    let wanted = UNITS_EACH * u64::from(workers.saturating_sub(1));
    let mut greatest: u64 = 0;
    let mut nodes: u64 = 0;
    for end in first..units.len() as u32 {
        let size = units[end as usize].nodes.len() as u64;
        greatest = greatest.max(size);
        nodes = nodes.saturating_add(size);
        let many = u64::from(end - first) >= wanted;
        if many && nodes >= greatest.saturating_mul(u64::from(workers)) {
            return end + 1;
        }
    }
    units.len() as u32
}

/// The number of the first object whose analysis a unit needs: of its own, or of the first of all for the unit of merged
/// entries.
pub(crate) fn first_needed(shape: &Shape, unit: u32) -> usize
    ensures { result ≡ first_needed (object_of shape.now unit) }
{
    match object_of(shape, unit) {
        Some(object) => object as usize,
        None => 0,
    }
}

/// Drops the analyses from `dropped` up to `object`: units stand in the order of their objects.
pub(crate) fn drop_analyses(alloc: Global, left: &mut [Analysis], dropped: usize, object: usize)
    requires { dropped ≤ object }
    ensures { (all : Listed Seen) → AreLeft dropped all left.old → AreLeft object all left.new }
{
    for i in dropped..object {
        drop_analysis(alloc, left, i);
    }
}

/// Puts an analysis without entries in the place of another.
fn drop_analysis(alloc: Global, left: &mut [Analysis], i: usize)
    ensures { (all : Listed Seen) → AreLeft i all left.old → AreLeft (i + 1) all left.new }
{
    if i < left.len() {
        left[i] = no_entries(alloc);
    }
}
