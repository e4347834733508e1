//! The entries of a unit: stretch after stretch, prepared and appended, in turn or beside each other.

ghost use Rattle.std.specs.Prelude.{◌≡◌, ◌<◌, OnOk};
ghost use Rattle.dwarf_types.specs.Entries.{unit_len};
ghost use Rattle.unit_draft.specs.Long.{RefusesLong};
ghost use Rattle.unit_draft.specs.Stretches.{IsReady};
ghost use Rattle.unit_draft.specs.Whole.{IsBegun, IsEntered};

use crate::entries::Appender;
use crate::error::DraftError;
use crate::preparer::Preparer;
use crate::task::{Task, run_both};
use std::mem::swap;
use std::thread::Threads;
use unit_source::UnitSource;

/// The most nodes of a stretch that one thread prepares and appends: they are still in a cache near by.
const NEAR: usize = 1 << 9;

/// The most nodes of the first stretch that another thread appends: that thread waits for them.
const FIRST: usize = 1 << 13;

/// The most nodes of a stretch that another thread appends: enough work that the system gives it a processor of its own.
const FAR: usize = 1 << 16;

/// The most nodes of the first stretch, by how many workers there are.
pub(crate) fn first_size(workers: u32) -> usize
    ensures { 0 < result }
{
    if workers < 2 { NEAR } else { FIRST }
}

/// The most nodes of any stretch.
pub(crate) fn last_size(workers: u32) -> usize {
    if workers < 2 { NEAR } else { FAR }
}

/// Appends the entries of the unit of a number, stretch by stretch: each is appended when the next one is prepared. Where there
/// are two workers, both are done at the same time.
pub(crate) fn append_stretches<'a, R: Threads + Sync, S: UnitSource + Sync>(
    rt: &R,
    workers: u32,
    unit: &'a S,
    number: u32,
    preparer: &mut Preparer<'a, S>,
    appender: &mut Appender<'a>,
) -> Result<(), DraftError>
    requires ready { IsReady S.unit number (S.unit unit.now) preparer.old }
    requires first { preparer.old.next ≡ 0 }
    requires begun { IsBegun number (S.unit unit.now).version appender.old }
    ensures entered { OnOk result (IsEntered number (S.unit unit.now) appender.new preparer.new.declared) }
    ensures long { RefusesLong result (unit_len number (S.unit unit.now)) }
{
    let count = unit.len();
    preparer.run()?;
    swap(&mut preparer.stretch, &mut appender.stretch);
    while preparer.next < count {
        let (prepared, appended) = run_both(rt, workers, preparer, appender);
        appended?;
        prepared?;
        swap(&mut preparer.stretch, &mut appender.stretch);
    }
    appender.run()
}
