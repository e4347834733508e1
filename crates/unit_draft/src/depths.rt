//! How deep each node stands.

ghost use Rattle.std.specs.Prelude.{◌≡◌, ◌+◌, ◌<◌, ◌^◌, length, slice_index, IfOk};
ghost use Rattle.std.specs.List.{All};
ghost use Rattle.std.specs.Option.{option_map_or};
ghost use Rattle.unit_draft.specs.Depths.{depths_of};

use ds_base::{List, NoMemory};
use std::alloc::Global;
use unit_source::UnitSource;

/// How many ancestors each node has.
pub(crate) fn depths_in<S: UnitSource>(alloc: Global, unit: &S) -> Result<List<u32>, NoMemory>
    requires few { length (S.unit unit.now).nodes < 2 ^ 28 }
    ensures { IfOk result (λ depths. depths ≡ depths_of (S.unit unit.now).nodes) }
{
    let mut depths = List::new(alloc);
    for k in 0..unit.len() {
        let depth = depth_in(depths.as_slice(), unit.parent(k));
        depths.push(depth)?;
    }
    Ok(depths)
}

/// How many ancestors a node has, by those of the nodes before it.
fn depth_in(depths: &[u32], parent: Option<u32>) -> u32
    requires small { All (λ depth. depth < 2 ^ 28) depths.now }
    ensures { result ≡ option_map_or (λ p. slice_index depths.now p + 1) parent 0 }
{
    match parent {
        Some(parent) => depth_at(depths, parent as usize) + 1,
        None => 0,
    }
}

/// The depth of a node; 0 behind the last.
pub(crate) fn depth_at(depths: &[u32], node: usize) -> u32
    ensures { result ≡ slice_index depths.now node }
{
    match depths.get(node) {
        Some(depth) => *depth,
        None => 0,
    }
}
