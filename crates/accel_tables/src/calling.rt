//! What an entry is called.

ghost use Rattle.std.specs.Prelude.{◌≡◌, ◌++◌, reverse, IfOk, OnOk};
ghost use Rattle.std.specs.Option.{option_copied, option_to_list};
ghost use Rattle.accel_tables.specs.EnteredNames;
ghost use Rattle.accel_tables.specs.EnteredNames.{leads};

use crate::attributes::{target_at, text_at};
use ds_base::dwarf::{DW_AT_abstract_origin, DW_AT_specification};
use ds_base::{List, NoMemory};
use dwarf_types::{Graph, Node, Target};
use std::alloc::Global;

/// How many entries are looked at for a name: the entry itself, and one for each reference that is followed.
const MOST_LOOKED_AT: u32 = 17;

/// The text of an attribute of an entry, or of the first entry that has one of those to which its abstract origins and
/// specifications lead.
pub(crate) fn called(
    alloc: Global,
    graph: &Graph,
    at: u16,
    target: Target,
) -> Result<Option<&[u8]>, NoMemory>
    ensures { IfOk result (λ text. option_copied text ≡ EnteredNames.called graph.now at target) }
{
    let mut waiting = List::new(alloc);
    waiting.push(target)?;
    for _ in 0..MOST_LOOKED_AT {
        let Some(next) = waiting.pop() else {
            return Ok(None);
        };
        let Some(node) = node_at(graph, next) else {
            continue;
        };
        if let Some(text) = text_at(node, at) {
            return Ok(Some(text));
        }
        push_leads(&mut waiting, node)?;
    }
    Ok(None)
}

/// The entry to which a reference leads.
fn node_at(graph: &Graph, target: Target) -> Option<&Node>
    ensures { option_copied result ≡ EnteredNames.node_at graph.now target }
{
    match graph.units.get(target.unit as usize) {
        Some(unit) => unit.nodes.get(target.node as usize),
        None => None,
    }
}

/// Puts the entries to which an entry leads last, the one that comes next behind the other.
fn push_leads(waiting: &mut List<Target>, node: &Node) -> Result<(), NoMemory>
    ensures { OnOk result (reverse waiting.new ≡ leads node.now ++ reverse waiting.old) }
{
    push_some(waiting, target_at(node, DW_AT_specification))?;
    push_some(waiting, target_at(node, DW_AT_abstract_origin))?;
    Ok(())
}

/// Puts an entry last, if there is one.
fn push_some(waiting: &mut List<Target>, target: Option<Target>) -> Result<(), NoMemory>
    ensures { OnOk result (waiting.new ≡ waiting.old ++ option_to_list target) }
{
    if let Some(target) = target {
        waiting.push(target)?;
    }
    Ok(())
}
