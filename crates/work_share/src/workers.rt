//! A job done for each item of a phase, by several threads.
ghost use Rattle.std.specs.Prelude.{ℕ, ◌<◌, ◌≤◌, IfOk};
ghost use Rattle.std.specs.Thread.{IsSync};
ghost use Rattle.work_share.specs.Results.{GivesAll};
ghost use Rattle.work_share.specs.Seats.{known};
ghost use Rattle.work_share.specs.Shares.{MayShare, Finished};

use crate::context::Workers;
use crate::counter::{TaskSeat, Tasks};
use crate::done::Done;
use crate::job::Job;
use crate::opening::tasks;
use crate::order::in_order;
use ds_base::{List, NoMemory};
use ds_files::Gate;
use std::alloc::Global;
use std::thread::{Threads, join};

/// A result for each item below `count`, in the order of the items, by so many threads at most.
///
/// Each worker claims one item after the other, passes the gate once for it, and runs the job. A worker for which no
/// thread can be started does its work in the caller's.
pub fn each<R: Threads + Sync, J: Job + Sync, G: Gate + Sync>(
    workers: &Workers<R>,
    count: u32,
    phase: u32,
    gate: &G,
    job: &J,
) -> Result<List<J::Out>, NoMemory>
    requires takes { (i : ℕ) → i < count → J.takes job.now i }
    ensures { IfOk result (λ outs. GivesAll (J.gives job.now) count outs) }
{
    let (tasks, seat) = tasks(workers.alloc, count)?;
    let many = workers.count.min(count.max(1));
    let (_seat, done) = shared_out(
        workers.rt,
        workers.alloc,
        &tasks,
        seat,
        many,
        phase,
        gate,
        job,
    )?;
    in_order(workers.alloc, count, done)
}

// What so many workers do, some of them beside the others.
//
// The caller's thread begins as many of the others as its share allows: a system puts a thread that was begun by a new one on
// the processor of that one, where it waits while other processors have nothing to do.
#[cycle(sharing)]
fn shared_out<R: Threads + Sync, J: Job + Sync, G: Gate + Sync>(
    rt: &R,
    alloc: Global,
    tasks: &Tasks,
    mut seat: TaskSeat,
    workers: u32,
    phase: u32,
    gate: &G,
    job: &J,
) -> Result<(TaskSeat, Vec<Done<J::Out>>), NoMemory>
    requires seat { MayShare tasks.now seat workers }
    requires takes { (i : ℕ) → i < tasks.now.count → J.takes job.now i }
    ensures { IfOk result (λ r. Finished (J.gives job.now) tasks.now (known seat).share r.0 r.1.items) }
{
    if workers < 2 {
        return work(alloc, tasks, seat, phase, gate, job);
    }
    let Some(other) = tasks.split(&mut seat) else {
        unreachable!()
    };
    let back = other.share().min(workers - 1);
    let front = workers - back;
    let (a, b) = join(
        rt,
        move || -> Result<(TaskSeat, Vec<Done<J::Out>>), NoMemory>
            requires { IsSync R.row × IsSync J.row × IsSync G.row × MayShare tasks.now seat front × ((i : ℕ) → i < tasks.now.count → J.takes job.now i) }
            ensures { IfOk result (λ r. Finished (J.gives job.entry.now) tasks.entry.now (known seat).share r.0 r.1.items) }
        { shared_out(rt, alloc, tasks, seat, front, phase, gate, job) },
        move || -> Result<(TaskSeat, Vec<Done<J::Out>>), NoMemory>
            requires { IsSync R.row × IsSync J.row × IsSync G.row × MayShare tasks.now other back × ((i : ℕ) → i < tasks.now.count → J.takes job.now i) }
            ensures { IfOk result (λ r. Finished (J.gives job.entry.now) tasks.entry.now (known other).share r.0 r.1.items) }
        { shared_out(rt, alloc, tasks, other, back, phase, gate, job) },
    );
    let (mut seat, mut done) = a?;
    let (other, mut more) = b?;
    tasks.join(&mut seat, other);
    done.append(&mut more)?;
    Ok((seat, done))
}

// What one worker does until there is nothing left to claim.
fn work<J: Job, G: Gate>(
    alloc: Global,
    tasks: &Tasks,
    mut seat: TaskSeat,
    phase: u32,
    gate: &G,
    job: &J,
) -> Result<(TaskSeat, Vec<Done<J::Out>>), NoMemory>
    requires seat { MayShare tasks.now seat 1 }
    requires takes { (i : ℕ) → i < tasks.now.count → J.takes job.now i }
    ensures { IfOk result (λ r. Finished (J.gives job.now) tasks.now (known seat).share r.0 r.1.items) }
{
    let mut done = Vec::new(alloc);
    while let Some(item) = tasks.claim(&mut seat) {
        gate.pass(phase, item);
        let out = job.run(item);
        done.push(Done { item, out })?;
    }
    Ok((seat, done))
}
