//! One entry: its node.

ghost use Rattle.std.specs.Prelude.{◌≡◌, ◌<◌, ◌^◌, ◌++◌, [], ◌∷◌, length, OnOk};
ghost use Rattle.std.specs.Option.{ForSome};
ghost use Rattle.link_graph.specs.Passes.{nodes_with, parent_in, plain_with};

use ds_base::{List, NoMemory};
use dwarf_types::{EntryRef, Origin};

/// Puts entry `k` of an object, if it is kept, behind the nodes of its unit, and the number of its node behind those of
/// the entries before it.
///
/// `object` counts from 1.
pub(crate) fn add_entry(
    object: u32,
    k: u32,
    entry: &EntryRef,
    kept: bool,
    nodes: &mut List<Origin>,
    plain: &mut List<Option<u32>>,
) -> Result<(), NoMemory>
    requires few { length nodes.old < 2 ^ 32 }
    requires parent { ForSome entry.now.parent (λ p. p < length plain.old) }
    ensures nodes { OnOk result (nodes.new ≡ nodes.old ++ nodes_with kept object k entry.now plain.old) }
    ensures plain { OnOk result (plain.new ≡ plain.old ++ plain_with kept (length nodes.old) ∷ []) }
{
    if !kept {
        plain.push(None)?;
        return Ok(());
    }
    let node = nodes.len() as u32;
    nodes.push(Origin {
        object,
        entry: k,
        parent: parent_in(plain.as_slice(), entry.parent()),
    })?;
    plain.push(Some(node))?;
    Ok(())
}

/// The node of a parent, by those of the entries up to it.
fn parent_in(plain: &[Option<u32>], parent: Option<u32>) -> Option<u32>
    requires { ForSome parent (λ p. p < length plain.now) }
    ensures { result ≡ parent_in plain.now parent }
{
    plain[parent? as usize]
}
