//! The linked graph: its names, its shape, and its frames.

ghost use Rattle.std.specs.Prelude.{◌≡◌, ◌<◌, ◌≤◌, ◌^◌, ◌-◌, List as Listed, [], Ok, length, IfOk};
ghost use Rattle.std.specs.List.{All, flat_map};
ghost use Rattle.std.specs.Result.{result_map_both};
ghost use Rattle.dwarf_types.specs.Sound.{IsSound};
ghost use Rattle.link_graph.specs.Pool.{pool_names};
ghost use Rattle.odr_names.specs.Winners.{AreWinners};
ghost use Rattle.type_names.specs.Names.{Named};
ghost use Rattle.object_reads.specs.Marks.{MarkLive};
ghost use Rattle.unit_drafts.specs.Graphs.{IsClosed};
ghost use Rattle.link_status.specs.declared.refusal.LimitKind.TheVariants as limits;
ghost use Rattle.link_status.specs.declared.refusal.Refusal.TheVariants as refusals;
ghost use Rattle.object_reads.specs.MadeNames.{HaveNames};
ghost use Rattle.unit_drafts.specs.Shaped.{HasPool, Names, Shapes, ShapesAll};
ghost use Rattle.name_bids.specs.Opening.{IsOpenFor};

use crate::shaping::shared_shape;
use ds_base::limits::{POOLED_ENTRIES, SECTION_BYTES};
use ds_base::{BitRow, List, NoMemory};
use ds_files::Gate;
use dwarf_types::{Analysis, OutFrames, Shape};
use link_graph::ShapeError;
use link_status::{LimitKind, Refusal};
use name_bids::{OpenTable, joined_names, open_table, shared_winners};
use odr_names::{BookError, ObjectNames, PathBook, book, count};
use std::alloc::Global;
use std::thread::Threads;
use type_pool::ClosedPool;
use work_share::{Work, Workers};

/// The shape of a linked graph, and what is counted of the names that are merged in it.
#[derive(Drop)]
pub struct Shaped {
    pub shape: Shape,
    /// The entries that are merged with others of their name.
    pub pooled: u64,
    /// Their names, each once.
    pub names: u64,
    /// The closed table in which they were bid for.
    pub closed: ClosedPool,
}

/// The shape of the graph of the live entries of all objects, where those of one name are merged or not; or that too many
/// entries are merged, or that it has too many units. `made` are the names of each object, for which several threads bid.
pub fn shape_of<R: Threads + Sync, G: Gate + Sync>(
    work: &Work<R, G>,
    odr: bool,
    seen: &[Analysis],
    live: &[BitRow],
    made: List<ObjectNames>,
) -> Result<Shaped, Refusal>
    requires sound { All IsSound seen.now }
    requires live { MarkLive seen.now live.now }
    requires few { length seen.now < 2 ^ 16 }
    requires made { HaveNames odr seen.now live.now made }
    ensures { Shapes odr seen.now live.now result }
{
    let workers = work.workers;
    let open = names_of(workers, odr, seen, live, made)?;
    let (names, table) = open;
    let bids = shared_winners(
        workers.rt,
        workers.alloc,
        workers.count,
        work.gate,
        &names,
        table,
    )?;
    let (winners, closed) = bids;
    let shape = few_units(workers, odr, seen, live, &names, &winners)?;
    let pooled = count(&names);
    let names = merged_nodes(&shape, pooled);
    Ok(Shaped {
        shape,
        pooled: u64::from(pooled),
        names,
        closed,
    })
}

/// The closed table of a link in which nothing is merged.
pub fn no_names<R: Threads + Sync, G: Gate + Sync>(
    work: &Work<R, G>,
) -> Result<ClosedPool, NoMemory>
    ensures { IfOk result (IsClosed []) }
{
    let workers = work.workers;
    let open = no_book(workers.alloc)?;
    let (names, table) = open;
    let bids = shared_winners(
        workers.rt,
        workers.alloc,
        workers.count,
        work.gate,
        &names,
        table,
    )?;
    let (_, closed) = bids;
    Ok(closed)
}

/// The book of no names, with its table.
fn no_book<'a>(alloc: Global) -> Result<(PathBook<'a>, OpenTable), NoMemory>
    ensures names { IfOk result (λ r. r.0 ≡ []) }
    ensures table { IfOk result (λ r. IsOpenFor r.0 r.1) }
{
    let names = match book(alloc, &[], &[], false) {
        Ok(names) => names,
        Err(BookError::Pooled) => unreachable!(),
        Err(BookError::NoMemory) => return Err(NoMemory),
    };
    let table = open_table(alloc, count(&names))?;
    Ok((names, table))
}

/// The names of the entries that are merged, joined of those of each object, with a table that is open for them; or that
/// there are too many.
fn names_of<'a, R: Threads>(
    workers: &Workers<R>,
    odr: bool,
    seen: &'a [Analysis],
    live: &'a [BitRow],
    made: List<ObjectNames>,
) -> Result<(PathBook<'a>, OpenTable), Refusal>
    requires live { MarkLive seen.now live.now }
    requires few { length seen.now < 2 ^ 16 }
    requires made { HaveNames odr seen.now live.now made }
    ensures names { Names odr seen.now live.now (result_map_both (λ r. r.0) (λ e. e) result) }
    ensures table { IfOk result (λ r. IsOpenFor r.0 r.1) }
{
    if !odr {
        return Ok(no_book(workers.alloc)?);
    }
    match joined_names(workers.rt, workers.alloc, workers.count, seen, live, made) {
        Ok(open) => Ok(open),
        Err(BookError::Pooled) => Err(Refusal::Limit {
            which: LimitKind::Pooled,
            number: POOLED_ENTRIES as u64,
        }),
        Err(BookError::NoMemory) => Err(Refusal::NoMemory),
    }
}

/// The shape of what is linked, made by several threads; or that it has too many units.
fn few_units<R: Threads + Sync>(
    workers: &Workers<R>,
    odr: bool,
    seen: &[Analysis],
    live: &[BitRow],
    names: &PathBook,
    winners: &[u32],
) -> Result<Shape, Refusal>
    requires sound { All IsSound seen.now }
    requires live { MarkLive seen.now live.now }
    requires few { length seen.now < 2 ^ 16 }
    requires names { Names odr seen.now live.now (Ok names.now) }
    requires winners { AreWinners names.now winners.now }
    ensures { ShapesAll odr seen.now live.now result }
{
    match shared_shape(workers, seen, live, names, winners) {
        Ok(shape) => {
            if shape.units.len() as u64 >= SECTION_BYTES {
                return Err(too_many_units());
            }
            Ok(shape)
        }
        Err(ShapeError::Units) => Err(too_many_units()),
        Err(ShapeError::NoMemory) => Err(Refusal::NoMemory),
    }
}

/// The limit of units: each takes bytes in a section.
pub fn too_many_units() -> Refusal
    ensures { result ≡ refusals.Limit limits.Section (2 ^ 32 - 1) }
{
    Refusal::Limit {
        which: LimitKind::Section,
        number: SECTION_BYTES,
    }
}

/// How many nodes stand for merged entries: all of the first unit but its root, where there are such entries.
fn merged_nodes(shape: &Shape, pooled: u32) -> u64
    requires pool { (names : Listed Named) × (pooled ≡ length names) × HasPool shape.now names }
    ensures { (names : Listed Named) → pooled ≡ length names → HasPool shape.now names → result ≡ length (pool_names names) }
{
    if pooled == 0 {
        return 0;
    }
    let first = &shape.units.as_slice()[0];
    first.nodes.len() as u64 - 1
}

/// The frames of all objects.
pub fn frames_of(alloc: Global, seen: &[Analysis]) -> Result<OutFrames, NoMemory>
    ensures { IfOk result (λ frames. frames ≡ flat_map (λ object. object.frames) seen.now) }
{
    let mut frames = OutFrames::new(alloc);
    for object in seen {
        frames.append(&object.frames)?;
    }
    Ok(frames)
}
