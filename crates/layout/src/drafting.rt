//! The drafts of the units of a graph.

ghost use Rattle.std.specs.Prelude.{◌-◌, ◌^◌, ◌<◌, length};
ghost use Rattle.layout.specs.Pass.{DraftsUnits};

use crate::error::LayoutError;
use ds_base::List;
use dwarf_types::Graph;
use std::alloc::Global;
use std::thread::Threads;
use unit_draft::{Draft, DraftError, draft_unit};

/// Drafts the units up to the first that is too long.
pub(crate) fn draft_units<R: Threads + Sync>(
    rt: &R,
    alloc: Global,
    workers: u32,
    graph: &Graph,
) -> Result<List<Draft>, LayoutError>
    requires few { length graph.now.units < 2 ^ 32 - 1 }
    ensures { DraftsUnits graph.now result }
{
    let mut drafts = List::new(alloc);
    for (u, unit) in graph.units.as_slice().iter().enumerate() {
        let draft = match draft_unit(rt, alloc, workers, unit, u as u32) {
            Ok(draft) => draft,
            Err(DraftError::Unit) => return Err(LayoutError::Unit { unit: u as u32 }),
            Err(DraftError::NoMemory) => return Err(LayoutError::NoMemory),
        };
        drafts.push(draft)?;
    }
    Ok(drafts)
}
