//! Standard output.

ghost use Rattle.std.specs.Prelude.{◌≡◌};

use crate::sink::{Sink, SinkFailed};
use std::io;
use std::io::Write;
use std::marker::Model;

/// Standard output. What was written is not told; a contract sees the counts of calls and of failures alone.
#[derive(Drop)]
pub struct HostSink<R> {
    rt: R,
    calls: u64,
    faults: u64,
}

impl<R> Model for HostSink<R> {
    ghost use Rattle.ds_files.specs.Counting.{PutCounts};

    ghost Value = { PutCounts };

    ghost view = { λ s. record { calls = s.calls; faults = s.faults } };
}

impl<R: Print> HostSink<R> {
    ghost use Rattle.ds_files.specs.Counting.{no_puts};

    /// The standard output of a runtime, with no call yet. `rt` may be a reference to the runtime.
    pub fn new(rt: R) -> HostSink<R>
        ensures { result ≡ no_puts }
    {
        HostSink {
            rt,
            calls: 0,
            faults: 0,
        }
    }
}

impl<R: Print> Sink for HostSink<R> {
    ghost use Rattle.std.specs.Prelude.{◌≡◌, ◌≤◌, None, is_ok};
    ghost use Rattle.ds_files.specs.Counting.{counts_after_put};

    ghost text = { λ _. None };

    ghost calls = { λ s. s.calls };

    ghost faults = { λ s. s.faults };

    fn put(&mut self, bytes: &[u8]) -> Result<(), SinkFailed>
        ensures after { self.new ≡ counts_after_put (is_ok result) self.old }
        ensures later { self.old.faults ≤ self.new.faults }
    {
        self.calls = self.calls.saturating_add(1);
        match io::writer(&self.rt).write_all(bytes) {
            Ok(()) => Ok(()),
            Err(_) => {
                self.faults = self.faults.saturating_add(1);
                Err(SinkFailed)
            }
        }
    }
}
