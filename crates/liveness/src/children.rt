//! The children of each entry, found without a search.

ghost use Rattle.std.specs.Prelude.{◌≡◌, ◌≤◌, ◌<◌, ◌^◌, Some, None, length, IfOk, slice_index_or, slice_set};
ghost use Rattle.std.specs.Option.{ForSome, option_and_then, option_map_or};
ghost use Rattle.dwarf_types.specs.Tree.{ParentsStandBefore};
ghost use Rattle.liveness.specs.ChildTable.{IsTable};

use ds_base::NoMemory;
use dwarf_types::Entries;
use std::alloc::Global;

/// The children of each entry as chains, from the last child to the first.
#[derive(Drop)]
pub(crate) struct Children {
    /// Of each entry, the number of its last child.
    pub(crate) last: Vec<Option<u32>>,
    /// Of each entry, the number of the child of the same parent that stands before it.
    pub(crate) before: Vec<Option<u32>>,
}

/// The children of each of some entries.
pub(crate) fn children_of(alloc: Global, entries: &Entries) -> Result<Children, NoMemory>
    requires few { length entries.now ≤ 2 ^ 24 }
    requires parents { ParentsStandBefore entries.now }
    ensures { IfOk result (λ children. IsTable entries.now (length entries.now) children.last.items children.before.items) }
{
    let mut last = vec![in alloc; None; entries.len()]?;
    let mut before = Vec::with_capacity(alloc, entries.len())?;
    for i in 0..entries.len() {
        before.push(enter_child(&mut last, entries.entry(i).parent(), i as u32))?;
    }
    Ok(Children { last, before })
}

/// Makes an entry the last child of its parent, and gives the one that was the last.
fn enter_child(last: &mut [Option<u32>], parent: Option<u32>, child: u32) -> Option<u32>
    requires { ForSome parent (λ p. p < length last.old) }
    ensures before { result ≡ option_and_then (λ p. slice_index_or last.old p None) parent }
    ensures after { last.new ≡ option_map_or (λ p. slice_set last.old p (Some child)) parent last.old }
{
    let parent = parent? as usize;
    let before = last[parent];
    last[parent] = Some(child);
    before
}
