//! Two tasks done beside each other.

ghost use Rattle.std.specs.Thread.{IsSend};

use std::thread::{Threads, join_mut};

/// Work on what it holds.
pub(crate) trait Task {
    type Out: Send;

    ghost can_run: { Self → Type 0 };

    ghost run_gives: { Self → Self.Out → Self → Type 0 };

    fn run(&mut self) -> Self::Out
        requires { can_run self.old }
        ensures { run_gives self.old result self.new };
}

/// Runs both; where there are two workers, each in a thread of its own if one can be started.
pub(crate) fn run_both<R: Threads + Sync, A: Task + Send, B: Task + Send>(
    rt: &R,
    workers: u32,
    a: &mut A,
    b: &mut B,
) -> (A::Out, B::Out)
    requires a { A.can_run a.old }
    requires b { B.can_run b.old }
    ensures a { A.run_gives a.old result.0 a.new }
    ensures b { B.run_gives b.old result.1 b.new }
{
    if workers < 2 {
        let second = b.run();
        return (a.run(), second);
    }
    run_beside(rt, a, b)
}

/// Runs both, each in a thread of its own where one can be started.
fn run_beside<R: Threads + Sync, A: Task + Send, B: Task + Send>(
    rt: &R,
    a: &mut A,
    b: &mut B,
) -> (A::Out, B::Out)
    requires a { A.can_run a.old }
    requires b { B.can_run b.old }
    ensures a { A.run_gives a.old result.0 a.new }
    ensures b { B.run_gives b.old result.1 b.new }
{
    let mut run_a = || -> A::Out
        requires { IsSend A.row × A.can_run a.now }
        ensures { A.run_gives a.entry.now result a.exit.now }
    { a.run() };
    let mut run_b = || -> B::Out
        requires { IsSend B.row × B.can_run b.now }
        ensures { B.run_gives b.entry.now result b.exit.now }
    { b.run() };
    join_mut(rt, &mut run_a, &mut run_b)
}
