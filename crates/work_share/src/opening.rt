//! A new counter.
ghost use Rattle.std.specs.Prelude.{◌≡◌, IfOk};
ghost use Rattle.work_share.specs.Counter.{fresh};
ghost use Rattle.work_share.specs.Seats.{known, Belongs};

use crate::counter::{TaskSeat, Tasks};
use crate::steps::Counting;
use crate::view::TaskView;
use atomic_table::Table;
use ds_base::NoMemory;
use std::alloc::Global;

/// A counter of the numbers below `count`, with its first seat, which has all 64 shares.
pub fn tasks(alloc: Global, count: u32) -> Result<(Tasks, TaskSeat), NoMemory>
    ensures count { IfOk result (λ made. made.0.count ≡ count) }
    ensures seat { IfOk result (λ made. Belongs made.0 made.1 × (known made.1 ≡ fresh count)) }
{
    let (table, seat) = Table::<(), TaskView, u32, Counting, Global>::of_words(
        alloc,
        &[0],
        &count,
    )?;
    Ok((
        Tasks { table, count },
        TaskSeat {
            seat,
            share: 64,
            has_ended: false,
        },
    ))
}
