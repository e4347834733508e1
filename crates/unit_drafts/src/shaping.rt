//! The shape of the linked graph, made by several threads.

ghost use Rattle.std.specs.Prelude.{◌≡◌, ◌<◌, ◌≤◌, ◌+◌, ◌^◌, ◌∷◌, Bool, Ok, Err, length, map, IfOk};
ghost use Rattle.std.specs.List.{All};
ghost use Rattle.dwarf_types.specs.LinkedShape.{AreMarked};
ghost use Rattle.dwarf_types.specs.Sound.{IsSound};
ghost use Rattle.link_graph.specs.declared.shape_error.ShapeError.TheVariants as errors;
ghost use Rattle.link_graph.specs.Graph.{IsShape};
ghost use Rattle.link_graph.specs.Merged.{linked_names, shape_of};
ghost use Rattle.odr_names.specs.Winners.{AreWinners};
ghost use Rattle.unit_drafts.specs.declared.shaping.Made.TheVariants as made;
ghost use Rattle.unit_drafts.specs.Shaping.{GivesMade, IsPathsFirst, MayMake};

use ds_base::{BitRow, List, NoMemory};
use ds_files::OpenGate;
use dwarf_types::{Analysis, Shape};
use link_graph::{ObjectShape, PathNodes, ShapeError, joined_shape, object_shape, path_nodes};
use odr_names::PathBook;
use std::alloc::Global;
use std::thread::Threads;
use work_share::{Job, Workers, each};

/// The number of the phase in which a shape is made. Its gate is open.
const SHAPE: u32 = 1;

/// What a shape is joined of.
#[derive(Drop)]
enum Made {
    /// The nodes of merged entries.
    Paths(PathNodes),
    /// What one object gives.
    Object(ObjectShape),
}

/// What the shape of a link is joined of is made: item 0 is the nodes of merged entries, which take longest, and behind
/// it stand the objects.
#[derive(Drop)]
struct Shaping<'a, 'b> {
    alloc: Global,
    seen: &'a [Analysis],
    live: &'a [BitRow],
    names: &'a PathBook<'b>,
    winners: &'a [u32],
}

impl<'a, 'b> Job for Shaping<'a, 'b> {
    type Out = Result<Made, NoMemory>;

    ghost takes = { λ job item. MayMake job.seen.now job.live.now job.names.now job.winners.now item };

    ghost gives = { λ job item out. GivesMade job.seen.now job.live.now job.names.now job.winners.now item out };

    fn run(&self, item: u32) -> Result<Made, NoMemory> {
        if item == 0 {
            return self.paths();
        }
        self.object(item - 1)
    }
}

impl<'a, 'b> Shaping<'a, 'b> {
    /// The nodes of merged entries.
    fn paths(&self) -> Result<Made, NoMemory>
        requires { MayMake self.now.seen.now self.now.live.now self.now.names.now self.now.winners.now 0 }
        ensures { GivesMade self.now.seen.now self.now.live.now self.now.names.now self.now.winners.now 0 result }
    {
        let paths = path_nodes(self.alloc, self.names, self.winners)?;
        Ok(Made::Paths(paths))
    }

    /// What an object gives.
    fn object(&self, object: u32) -> Result<Made, NoMemory>
        requires { MayMake self.now.seen.now self.now.live.now self.now.names.now self.now.winners.now (object + 1) }
        ensures { GivesMade self.now.seen.now self.now.live.now self.now.names.now self.now.winners.now (object + 1) result }
    {
        let own = object_shape(self.alloc, self.seen, self.live, self.names, object)?;
        Ok(Made::Object(own))
    }
}

/// The shape of what is linked, made by at most `workers` threads.
///
/// It is that of [`link_graph::build`]: one worker puts the winners in the order of their nodes, and the others make the
/// shapes of one object after the other. To join these, they share the nodes of merged entries, and then the objects whose
/// references are led on. A worker for which no thread can be started does its work in the caller's.
pub(crate) fn shared_shape<R: Threads + Sync>(
    workers: &Workers<R>,
    seen: &[Analysis],
    live: &[BitRow],
    names: &PathBook,
    winners: &[u32],
) -> Result<Shape, ShapeError>
    requires sound { All IsSound seen.now }
    requires marked { AreMarked seen.now live.now }
    requires few { length seen.now < 2 ^ 16 }
    requires book { (odr : Bool) × (names.now ≡ linked_names odr seen.now live.now) }
    requires winners { AreWinners names.now winners.now }
    ensures exact { IfOk result (λ shape. (odr : Bool) → names.now ≡ linked_names odr seen.now live.now → shape ≡ shape_of odr seen.now live.now) }
    ensures is { IfOk result (λ shape. IsShape seen.now shape) }
    ensures units { result ≡ Err errors.Units → (odr : Bool) → names.now ≡ linked_names odr seen.now live.now → 2 ^ 32 ≤ length (shape_of odr seen.now live.now).units }
{
    let alloc = workers.alloc;
    let job = Shaping {
        alloc,
        seen,
        live,
        names,
        winners,
    };
    let gate = OpenGate::new();
    let count = seen.len() as u32 + 1;
    let outs = each(workers, count, SHAPE, &gate, &job)?;
    let parts = parted(alloc, outs)?;
    let (paths, own) = parts;
    joined_shape(workers.rt, alloc, workers.count, names, winners, paths, own)
}

/// The nodes of merged entries, which come first, and what the objects give, unless memory ran out for any.
fn parted(
    alloc: Global,
    outs: List<Result<Made, NoMemory>>,
) -> Result<(PathNodes, Vec<ObjectShape>), NoMemory>
    requires { IsPathsFirst outs }
    ensures { IfOk result (λ parts. Ok (made.Paths parts.0) ∷ map (λ one. Ok (made.Object one)) parts.1.items ≡ outs) }
{
    let mut own = Vec::with_capacity(alloc, outs.len())?;
    let mut left = outs.into_vec().into_iter();
    let Some(first) = left.next() else {
        unreachable!()
    };
    let Made::Paths(paths) = first? else {
        unreachable!()
    };
    for out in left {
        let Made::Object(one) = out? else {
            unreachable!()
        };
        own.push(one)?;
    }
    Ok((paths, own))
}
