//! A job done for each item of a phase, by several threads, in an order that is given.
ghost use Rattle.std.specs.Prelude.{ℕ, ◌≡◌, ◌<◌, ◌≤◌, IfOk, IfSome, length, slice_index};
ghost use Rattle.std.specs.List.{All};
ghost use Rattle.work_share.specs.Ordered.{IsGiven};
ghost use Rattle.work_share.specs.Results.{GivesAll};

use crate::context::Workers;
use crate::done::Done;
use crate::job::Job;
use crate::order::in_places;
use crate::workers::each;
use ds_base::{List, NoMemory};
use ds_files::Gate;
use std::alloc::Global;
use std::thread::Threads;

/// A job by the turns of an order, each of which names an item.
#[derive(Drop)]
struct Turns<'a, J> {
    job: &'a J,
    order: &'a [u32],
}

impl<'a, J: Job> Job for Turns<'a, J> {
    type Out = Done<J::Out>;

    ghost takes = { λ it turn. (turn < length it.order.now) × J.takes it.job.now (slice_index it.order.now turn) };

    ghost gives = { λ it turn out. (out.item ≡ slice_index it.order.now turn) × J.gives it.job.now out.item out.out };

    fn run(&self, turn: u32) -> Done<J::Out> {
        let item = self.order[turn as usize];
        let out = self.job.run(item);
        Done { item, out }
    }
}

/// A result for each item below `count`, in the order of the items, as [`each`] gives them.
///
/// `order` names the items in the order in which they are claimed, so that a long one can begin first. It is a hint: what
/// it names and is not below `count` is passed over, and what it does not name is done last, by the caller. The gate is
/// passed by the numbers of turns.
pub fn each_in_order<R: Threads + Sync, J: Job + Sync, G: Gate + Sync>(
    workers: &Workers<R>,
    count: u32,
    order: &[u32],
    phase: u32,
    gate: &G,
    job: &J,
) -> Result<List<J::Out>, NoMemory>
    requires takes { (i : ℕ) → i < count → J.takes job.now i }
    ensures { IfOk result (λ outs. GivesAll (J.gives job.now) count outs) }
{
    let order = below(workers.alloc, order, count)?;
    let turns = Turns {
        job,
        order: order.as_slice(),
    };
    let done = each(workers, order.len() as u32, phase, gate, &turns)?;
    by_items(workers.alloc, count, done, job)
}

/// The first of these items that are below `count`, at most as many.
fn below(alloc: Global, order: &[u32], count: u32) -> Result<Vec<u32>, NoMemory>
    ensures few { IfOk result (λ kept. length kept.items ≤ count) }
    ensures inside { IfOk result (λ kept. All (λ item. item < count) kept.items) }
{
    let mut kept = Vec::with_capacity(alloc, count as usize)?;
    for item in order {
        if *item < count && kept.len() < count as usize {
            kept.push(*item)?;
        }
    }
    Ok(kept)
}

/// The results in the order of their items. A job is done now for an item that has none.
fn by_items<J: Job>(
    alloc: Global,
    count: u32,
    done: List<Done<J::Out>>,
    job: &J,
) -> Result<List<J::Out>, NoMemory>
    requires takes { (i : ℕ) → i < count → J.takes job.now i }
    requires given { All (IsGiven (J.gives job.now) count) done }
    ensures { IfOk result (λ outs. GivesAll (J.gives job.now) count outs) }
{
    let slots = in_places(alloc, count, done.into_vec())?;
    let mut outs = Vec::with_capacity(alloc, slots.len())?;
    for slot in slots {
        let out = result_of(job, slot, outs.len() as u32);
        outs.push(out)?;
    }
    Ok(List::from_vec(outs))
}

/// The result of an item: the one in its place, or else what the job gives now.
fn result_of<J: Job>(job: &J, slot: Option<J::Out>, item: u32) -> J::Out
    requires takes { J.takes job.now item }
    requires slot { IfSome slot (J.gives job.now item) }
    ensures { J.gives job.now item result }
{
    match slot {
        Some(out) => out,
        None => job.run(item),
    }
}
