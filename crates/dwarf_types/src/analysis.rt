//! What a link takes from an object.

ghost use Rattle.std.specs.Prelude.{◌≡◌, IfOk};

use crate::address::Span;
use crate::entries::Entries;
use crate::entry::{InUnit, copy_each};
use crate::frames::OutFrames;
use ds_base::{List, NoMemory};
use std::alloc::Global;

/// A piece of a subprogram's code in the linked program.
#[derive(Clone, Copy)]
pub struct CodeRange {
    /// The number of the subprogram among the object's entries.
    pub entry: u32,
    pub span: Span,
}

/// An object's debugging information, with its addresses moved to the linked program.
#[derive(Drop)]
pub struct Analysis {
    pub units: List<InUnit>,
    /// The entries of all units, in document order: an entry stands before those below it.
    pub entries: Entries,
    /// The pieces of each subprogram's code, in the order of the subprograms.
    pub code: List<CodeRange>,
    pub frames: OutFrames,
}

/// A copy of an analysis. The columns are copied as they stand, so this takes the time to copy their bytes.
pub fn copy(alloc: Global, seen: &Analysis) -> Result<Analysis, NoMemory>
    ensures { IfOk result (λ it. it ≡ seen.now) }
{
    Ok(Analysis {
        units: copy_each(alloc, &seen.units)?,
        entries: seen.entries.copy(alloc)?,
        code: List::from_vec(Vec::from_slice(alloc, seen.code.as_slice())?),
        frames: seen.frames.copy(alloc)?,
    })
}

/// How many bytes the columns of an analysis hold, those behind their last items too, and the texts that its line tables
/// share, once.
///
/// It serves to bound what is kept, and no contract says how many they are.
pub fn held_bytes(seen: &Analysis) -> u64 {
    let code = (seen.code.len() as u64).saturating_mul(size_of::<CodeRange>() as u64);
    units_bytes(&seen.units)
        .saturating_add(seen.entries.held_bytes())
        .saturating_add(code)
        .saturating_add(seen.frames.held_bytes())
}

/// How many the units hold, with their line tables.
fn units_bytes(units: &List<InUnit>) -> u64 {
    let mut held = (units.len() as u64).saturating_mul(size_of::<InUnit>() as u64);
    let mut shared = 0;
    for unit in units.as_slice() {
        if let Some(lines) = &unit.lines {
            held = held.saturating_add(lines.held_bytes());
            shared = lines.files.shared_bytes().max(shared);
        }
    }
    held.saturating_add(shared)
}
