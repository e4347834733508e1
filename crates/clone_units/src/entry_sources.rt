//! The entries for which the nodes of the pool's unit stand.

ghost use Rattle.std.specs.Prelude.{◌≡◌, Some};
ghost use Rattle.clone_units.specs.Sourced.{IsSourced, source_seen};
ghost use Rattle.link_graph.specs.Graph.{source_of};

use crate::nodes::{analysis_of, entry_of};
use dwarf_types::{Analysis, EntryRef, Origin};

/// An entry of an object where it stands.
#[derive(Drop)]
pub(crate) struct SourceRef<'a> {
    /// The number of the object, counted from 0.
    pub(crate) object: usize,
    pub(crate) seen: &'a Analysis,
    pub(crate) entry: EntryRef<'a>,
}

/// The entry for which a node stands.
pub(crate) fn source_of(seen: &[Analysis], origin: Origin) -> SourceRef<'_>
    requires { IsSourced seen.now origin }
    ensures { source_of seen.now origin ≡ Some (source_seen result) }
{
    let object = origin.object as usize - 1;
    let own = analysis_of(seen, object);
    SourceRef {
        object,
        seen: own,
        entry: entry_of(own, origin.entry),
    }
}
