//! The rows of all objects, those of each behind those of earlier ones.

ghost use Rattle.std.specs.Prelude.{◌≡◌, length, map, IfOk};
ghost use Rattle.odr_names.specs.Book.{AreRows, AreTold, row_name};
ghost use Rattle.odr_names.specs.Numbered.{objects_of};
ghost use Rattle.odr_names.specs.Joining.{AreAllNames};
ghost use Rattle.type_names.specs.Names.{names};

use crate::one_object::ObjectNames;
use crate::path_book::{Objects, Row};
use ds_base::{BitRow, NoMemory};
use dwarf_types::Analysis;
use std::alloc::Global;

/// The objects with what is told of the names of each, and the rows of all, of which there are `total`. A row tells the
/// one above by how far it stands before, so rows are copied as they are.
pub(crate) fn joined<'a>(
    alloc: Global,
    seen: &'a [Analysis],
    live: &'a [BitRow],
    own: Vec<ObjectNames>,
    total: usize,
) -> Result<(Objects<'a>, Vec<Row>), NoMemory>
    requires live { length live.now ≡ length seen.now }
    requires own { AreAllNames (objects_of seen.now live.now) own.items }
    ensures told { IfOk result (λ r. AreTold r.0 × (r.0.seen.now ≡ seen.now) × (r.0.live.now ≡ live.now)) }
    ensures rows { IfOk result (λ r. AreRows (objects_of seen.now live.now) r.1.items) }
    ensures named { IfOk result (λ r. map (row_name (objects_of seen.now live.now)) r.1.items ≡ names (objects_of seen.now live.now)) }
{
    let mut names = Vec::with_capacity(alloc, own.len())?;
    let mut rows = Vec::with_capacity(alloc, total)?;
    for one in own {
        let ObjectNames {
            names: told,
            rows: more,
        } = one;
        rows.extend_from_slice(&more)?;
        names.push(told)?;
    }
    Ok((Objects { seen, live, names }, rows))
}
