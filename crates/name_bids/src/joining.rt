//! The cells of all names, from those that workers noted.

ghost use Rattle.std.specs.Prelude.{◌≡◌, ◌+◌, ◌≤◌, length, IfOk};
ghost use Rattle.std.specs.List.{All};
ghost use Rattle.ds_base.specs.Room.{put};
ghost use Rattle.name_bids.specs.Noting.{AreJoined, IsWithin};

use crate::bidding::ObjectCells;
use ds_base::NoMemory;
use odr_names::{PathBook, count};
use std::alloc::Global;

/// The cells of all names in their order, as they are noted.
pub(crate) fn joined_cells(
    alloc: Global,
    names: &PathBook,
    noted: &[ObjectCells],
) -> Result<Vec<u32>, NoMemory>
    requires { All (IsWithin (length names.now)) noted.now }
    ensures { IfOk result (λ cells. AreJoined (length names.now) noted.now cells.items) }
{
    let mut cells = vec![in alloc; 0; count(names) as usize]?;
    for i in 0..noted.len() {
        put_cells(&noted[i], &mut cells);
    }
    Ok(cells)
}

/// Puts the cells of an object in the places of its names.
fn put_cells(own: &ObjectCells, cells: &mut Vec<u32>)
    requires { IsWithin (length cells.old.items) own.now }
    ensures { cells.new.items ≡ put cells.old.items own.now.first own.now.cells.items }
{
    let first = own.first as usize;
    cells[first..first + own.cells.len()].copy_from_slice(&own.cells);
}
