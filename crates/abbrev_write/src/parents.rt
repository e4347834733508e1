//! Which nodes have children.

ghost use Rattle.std.specs.Prelude.{◌≡◌, ◌<◌, ◌^◌, ◌||◌, ℕ, length, slice_index_or, false, IfOk};
ghost use Rattle.dwarf_types.specs.Abbreviations.{has_children, is_number};

use ds_base::{BitRow, NoMemory};
use std::alloc::Global;
use unit_source::UnitSource;

/// Marks the nodes that have children.
pub fn parents_in<S: UnitSource>(alloc: Global, unit: &S) -> Result<BitRow, NoMemory>
    requires few { length (S.unit unit.now).nodes < 2 ^ 28 }
    ensures len { IfOk result (λ marks. length marks ≡ length (S.unit unit.now).nodes) }
    ensures marked { IfOk result (λ marks. (k : ℕ) → k < length (S.unit unit.now).nodes → slice_index_or marks k false ≡ has_children (S.unit unit.now).nodes k) }
{
    let count = unit.len() as u32;
    let mut marks = BitRow::new(alloc, count)?;
    for k in 0..count {
        mark(&mut marks, count, unit.parent(k as usize));
    }
    Ok(marks)
}

/// Marks a parent, if it is one of so many nodes.
fn mark(marks: &mut BitRow, count: u32, parent: Option<u32>)
    requires { length marks.old ≡ count }
    ensures len { length marks.new ≡ count }
    ensures marked { (k : ℕ) → k < count → slice_index_or marks.new k false ≡ (slice_index_or marks.old k false || is_number k parent) }
{
    if let Some(parent) = parent {
        if parent < count {
            marks.set(parent);
        }
    }
}
