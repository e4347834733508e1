//! Where references to the entries of objects lead, once it is known how many units stand before those of each.

ghost use Rattle.std.specs.Prelude.{◌≡◌, ◌<◌, ℕ, List as Listed, Some, length, slice_get, Option as Maybe};
ghost use Rattle.dwarf_types.specs.declared.graph.Target.{Target as Leads};
ghost use Rattle.link_graph.specs.Joining.{Became, MayPlace, place_at, placed};
ghost use Rattle.link_graph.specs.PoolOrder.{AreNodes};

use crate::behind::place_behind;
use crate::merged::lead_to_paths;
use ds_base::List;
use dwarf_types::Target;
use odr_names::PathBook;
use std::thread::{Threads, for_each_mut};

/// What is known of an object among the others.
#[derive(Clone, Copy)]
pub(crate) struct Place {
    /// How many units stand before its own.
    pub(crate) before: u32,
    /// The first name of its merged entries.
    pub(crate) from: u32,
    /// The name behind the last of these.
    pub(crate) end: u32,
}

/// Who lets references to the entries of objects lead where they lead.
pub(crate) trait Placer {
    // Whether the rows of an object may be given.
    ghost may: { Self → ℕ → Listed (Maybe Leads) → Type 0 };

    // What becomes of them.
    ghost made: { Self → ℕ → Listed (Maybe Leads) → Listed (Maybe Leads) };

    fn place(&self, object: usize, images: &mut List<Option<Target>>)
        requires { may self.now object images.old }
        ensures { images.new ≡ made self.now object images.old };
}

/// The places of all objects, and the nodes of the paths of their merged entries.
#[derive(Drop)]
pub(crate) struct Places<'a> {
    pub(crate) names: &'a PathBook<'a>,
    pub(crate) winners: &'a [u32],
    pub(crate) nodes: &'a [Option<u32>],
    pub(crate) places: &'a [Place],
}

impl<'a> Placer for Places<'a> {
    ghost may = { λ all object images. (object < length all.places.now) × AreNodes all.names.now all.winners.now all.nodes.now × MayPlace all.names.now (place_at all.places.now object) images };

    ghost made = { λ all object images. placed all.names.now (place_at all.places.now object) images };

    fn place(&self, object: usize, images: &mut List<Option<Target>>) {
        let place = self.places[object];
        place_images(
            images.as_mut_slice(),
            place,
            self.names,
            self.winners,
            self.nodes,
        );
    }
}

/// Lets references to the entries of an object lead where they lead among all units.
///
/// `nodes` tells the node of the path of each name, at its winner.
fn place_images(
    images: &mut [Option<Target>],
    place: Place,
    names: &PathBook,
    winners: &[u32],
    nodes: &[Option<u32>],
)
    requires may { MayPlace names.now place images.old }
    requires nodes { AreNodes names.now winners.now nodes.now }
    ensures { images.new ≡ placed names.now place images.old }
{
    place_behind(images, place.before);
    lead_to_paths(images, names, winners, nodes, place.from, place.end);
}

/// Lets references to the entries of all objects lead where they lead, by at most so many threads.
pub(crate) fn place_shared<R: Threads + Sync, P: Placer + Sync>(
    rt: &R,
    threads: u32,
    images: &mut [List<Option<Target>>],
    placer: &P,
)
    requires threads { 0 < threads }
    requires may { (i : ℕ) (row : Listed (Maybe Leads)) → slice_get images.old i ≡ Some row → P.may placer.now i row }
    ensures { Became (P.made placer.now) images.old images.new }
{
    for_each_mut(
        rt,
        images,
        threads as usize,
        &|i: usize, row: &mut List<Option<Target>>|
            requires { P.may placer.now i row.old }
            ensures { row.new ≡ P.made placer.entry.now i row.old }
        { placer.place(i, row) },
    );
}
