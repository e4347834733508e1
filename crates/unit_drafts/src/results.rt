//! Results of a phase, batch by batch.

ghost use Rattle.std.specs.Prelude.{◌≡◌, ◌++◌, OnOk};

use ds_base::NoMemory;

/// Puts results behind those of the items before theirs.
pub(crate) fn put_behind<T: Drop>(results: &mut Vec<T>, more: Vec<T>) -> Result<(), NoMemory>
    ensures { OnOk result (results.new.items ≡ results.old.items ++ more.items) }
{
    let mut more = more;
    results.append(&mut more)?;
    Ok(())
}
