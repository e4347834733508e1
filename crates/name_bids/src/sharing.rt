//! What several workers do together: the closed table of a book, and the cell of each name.

ghost use Rattle.std.specs.Prelude.{◌≡◌, ◌<◌, ◌≤◌, List as Listed, length, IfOk};
ghost use Rattle.std.specs.Thread.{IsSync};
ghost use Rattle.name_bids.specs.Bids.{IsOfTasks};
ghost use Rattle.name_bids.specs.declared.bidding.ObjectCells.{ObjectCells as Own};
ghost use Rattle.name_bids.specs.Noting.{AreNoted, IsPlacedAt, cells_in};
ghost use Rattle.name_bids.specs.Opening.{IsOpenFor};
ghost use Rattle.name_bids.specs.Reading.{AreCells, IsCellOf};
ghost use Rattle.name_bids.specs.Sharing.{AreFor, HasEnded, HasWorked, MayShare, seat_view, turn_view};
ghost use Rattle.name_bids.specs.Tables.{IsTable};
ghost use Rattle.type_names.specs.Names.{Named};

use crate::bidding::{ObjectCells, bid_objects};
use crate::joining::joined_cells;
use crate::opening::OpenTable;
use ds_base::NoMemory;
use ds_files::Gate;
use odr_names::{PathBook, bids_are_some, object_count};
use std::alloc::Global;
use std::thread::{Threads, join};
use type_pool::{ClosedPool, Pool, PoolSeat};
use work_share::{TaskSeat, Tasks, tasks};

/// The table of a book, in which at most so many threads bid for all its names, closed; with the cell of each name.
pub(crate) fn bid_names<R: Threads + Sync, G: Gate + Sync>(
    rt: &R,
    alloc: Global,
    workers: u32,
    gate: &G,
    names: &PathBook,
    table: OpenTable,
) -> Result<(ClosedPool, Vec<u32>), NoMemory>
    requires workers { (1 ≤ workers) × (workers ≤ 64) }
    requires table { IsOpenFor names.now table }
    ensures table { IfOk result (λ r. IsTable names.now r.0.state) }
    ensures book { IfOk result (λ r. r.0.names ≡ length names.now) }
    ensures cells { IfOk result (λ r. AreCells names.now r.0.state.cells (cells_in r.1.items)) }
{
    let OpenTable { pool, seat } = table;
    let objects = object_count(names);
    let (work, turn) = tasks(alloc, objects)?;
    let workers = workers.min(objects.max(1));
    let bidder = Bidder { alloc, names, gate };
    let (seat, turn, noted) = bid_by(rt, &pool, seat, &work, turn, workers, &bidder)?;
    let closed = closed(pool, seat, names, &turn);
    let cells = joined_cells(alloc, names, &noted)?;
    Ok((closed, cells))
}

/// Seats that come back from work, with the cells of the names for which they bid.
type Worked = (PoolSeat, TaskSeat, Vec<ObjectCells>);

/// What a worker does with its seats.
trait Worker {
    // The names for which it bids.
    ghost book: { Self → Listed Named };

    fn work(
        &self,
        pool: &Pool,
        seat: PoolSeat,
        tasks: &Tasks,
        turn: TaskSeat,
    ) -> Result<Worked, NoMemory>
        requires book { AreFor (book self.now) pool.now tasks.now }
        requires seats { MayShare pool.now tasks.now seat turn 1 }
        ensures { IfOk result (λ r. HasWorked (book self.now) pool.now tasks.now (seat_view seat) (turn_view turn) r.0 r.1 r.2.items) };
}

/// A worker that bids for the names of a book, and passes a gate.
#[derive(Drop)]
struct Bidder<'a, G> {
    alloc: Global,
    names: &'a PathBook<'a>,
    gate: &'a G,
}

impl<'a, G: Gate> Worker for Bidder<'a, G> {
    ghost book = { λ bidder. bidder.names.now };

    fn work(
        &self,
        pool: &Pool,
        mut seat: PoolSeat,
        tasks: &Tasks,
        mut turn: TaskSeat,
    ) -> Result<Worked, NoMemory> {
        let noted = bid_objects(
            self.alloc, pool, &mut seat, self.names, tasks, &mut turn, self.gate,
        )?;
        Ok((seat, turn, noted))
    }
}

/// What so many workers do, some of them beside the others. The caller's thread begins as many of the others as its shares
/// allow, as it does for the jobs of `work_share`.
#[cycle(bidders)]
fn bid_by<R: Threads + Sync, W: Worker + Sync>(
    rt: &R,
    pool: &Pool,
    mut seat: PoolSeat,
    tasks: &Tasks,
    mut turn: TaskSeat,
    workers: u32,
    worker: &W,
) -> Result<Worked, NoMemory>
    requires book { AreFor (W.book worker.now) pool.now tasks.now }
    requires seats { MayShare pool.now tasks.now seat turn workers }
    ensures { IfOk result (λ r. HasWorked (W.book worker.now) pool.now tasks.now (seat_view seat) (turn_view turn) r.0 r.1 r.2.items) }
{
    if workers < 2 {
        return worker.work(pool, seat, tasks, turn);
    }
    let Some(other) = pool.split(&mut seat) else {
        unreachable!()
    };
    let Some(other_turn) = tasks.split(&mut turn) else {
        unreachable!()
    };
    let back = other.share().min(other_turn.share()).min(workers - 1);
    let front = workers - back;
    let (a, b) = join(
        rt,
        move || -> Result<Worked, NoMemory>
            requires { IsSync R.row × IsSync W.row × AreFor (W.book worker.now) pool.now tasks.now × MayShare pool.now tasks.now seat turn front }
            ensures { IfOk result (λ r. HasWorked (W.book worker.entry.now) pool.entry.now tasks.entry.now (seat_view seat) (turn_view turn) r.0 r.1 r.2.items) }
        { bid_by(rt, pool, seat, tasks, turn, front, worker) },
        move || -> Result<Worked, NoMemory>
            requires { IsSync R.row × IsSync W.row × AreFor (W.book worker.now) pool.now tasks.now × MayShare pool.now tasks.now other other_turn back }
            ensures { IfOk result (λ r. HasWorked (W.book worker.entry.now) pool.entry.now tasks.entry.now (seat_view other) (turn_view other_turn) r.0 r.1 r.2.items) }
        { bid_by(rt, pool, other, tasks, other_turn, back, worker) },
    );
    let (mut seat, mut turn, mut noted) = a?;
    let (other, other_turn, mut more) = b?;
    pool.join(&mut seat, other);
    tasks.join(&mut turn, other_turn);
    noted.append(&mut more)?;
    Ok((seat, turn, noted))
}

/// The table closed by the seat that has every share, once no task is left.
fn closed(pool: Pool, seat: PoolSeat, names: &PathBook, turn: &TaskSeat) -> ClosedPool
    requires ended { HasEnded names.now pool seat turn.now }
    ensures table { IsTable names.now result.state }
    ensures book { result.names ≡ length names.now }
    ensures cells { (noted : Listed Own) → AreNoted (length names.now) (IsPlacedAt names.now pool.cells (seat_view seat).notes) noted (IsOfTasks names.now (turn_view turn.now).drawn)
        → AreNoted (length names.now) (IsCellOf names.now result.state.cells) noted (λ x. x < length names.now) }
{
    turn.fairness();
    bids_are_some(names);
    match pool.close(seat) {
        Ok(closed) => closed,
        Err(_) => unreachable!(),
    }
}
