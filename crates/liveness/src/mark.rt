//! Marks in the row, and the entries that wait for their needs to be marked.

ghost use Rattle.std.specs.Prelude.{◌<◌, [], ◌∷◌, length, All, OnOk};
ghost use Rattle.liveness.specs.Marking.{Grown};

use ds_base::{BitRow, NoMemory};

/// Marks these entries. Those that were not marked before wait.
pub(crate) fn mark_all(row: &mut BitRow, work: &mut Vec<u32>, these: &[u32]) -> Result<(), NoMemory>
    requires { All (λ k. k < length row.old) these.now }
    ensures { OnOk result (Grown row.old work.old.items row.new work.new.items these.now) }
{
    for k in these {
        mark(row, work, *k)?;
    }
    Ok(())
}

/// Marks an entry, which waits if it was not marked before.
fn mark(row: &mut BitRow, work: &mut Vec<u32>, k: u32) -> Result<(), NoMemory>
    requires { k < length row.old }
    ensures { OnOk result (Grown row.old work.old.items row.new work.new.items (k ∷ [])) }
{
    if !row.get(k) {
        row.set(k);
        work.push(k)?;
    }
    Ok(())
}
