//! A sink that keeps what it takes.

ghost use Rattle.std.specs.Prelude.{◌≡◌, IfOk};

use crate::sink::{Sink, SinkFailed};
use ds_base::{List, NoMemory};
use std::alloc::Global;
use std::marker::Model;

/// A sink that keeps what it takes in memory and tells it, for tests.
#[derive(Drop)]
pub struct MemorySink {
    text: Vec<u8>,
    /// How many bytes it takes in all.
    room: u32,
    faults: u64,
    /// Calls of `put` so far.
    calls: u64,
    /// The numbers of the calls that fail, from 1.
    failing: List<u64>,
}

impl Model for MemorySink {
    ghost use Rattle.std.specs.Prelude.{◌≤◌, vec_len, vec_capacity};
    ghost use Rattle.ds_files.specs.MemorySink.{StoredText};

    ghost Value = { StoredText };

    ghost view = { λ s. record { text = s.text.items; room = s.room; faults = s.faults; calls = s.calls; failing = s.failing } };

    // The room was reserved, so that a call takes no memory.
    ghost invariant = { λ s. (vec_len s.text ≤ s.room) × (s.room ≤ vec_capacity s.text) };
}

impl MemorySink {
    ghost use Rattle.ds_files.specs.MemorySink.{no_text};

    /// A sink with no text, that takes `room` bytes in all and reserves them now.
    ///
    /// `failing` has the numbers of the calls of `put` that fail, counted from 1.
    pub fn new(alloc: Global, room: u32, failing: List<u64>) -> Result<MemorySink, NoMemory>
        ensures { IfOk result (λ made. made ≡ no_text room failing) }
    {
        Ok(MemorySink {
            text: Vec::with_capacity(alloc, room as usize)?,
            room,
            faults: 0,
            calls: 0,
            failing,
        })
    }

    /// All bytes that were taken.
    pub fn text(&self) -> &[u8]
        ensures { result.now ≡ self.now.text }
    {
        self.text.as_slice()
    }
}

impl Sink for MemorySink {
    ghost use Rattle.std.specs.Prelude.{◌≡◌, ◌≤◌, ◌++◌, Some, OnOk, OnErr, is_ok, option_map};
    ghost use Rattle.ds_files.specs.Outside.{Rose, PrefixAdded, one_more};
    ghost use Rattle.ds_files.specs.MemorySink.{takes, after_put};

    ghost text = { λ s. Some s.text };

    ghost calls = { λ s. s.calls };

    ghost faults = { λ s. s.faults };

    fn put(&mut self, bytes: &[u8]) -> Result<(), SinkFailed>
        ensures exact { is_ok result ≡ takes self.old bytes.now }
        ensures after { self.new ≡ after_put (is_ok result) bytes.now self.old }

        ensures done { OnOk result (Some self.new.text ≡ option_map (λ t. t ++ bytes.now) (Some self.old.text)) }
        ensures quiet { OnOk result (self.new.faults ≡ self.old.faults) }
        ensures failed { OnErr result (Rose self.old.faults self.new.faults × PrefixAdded bytes.now (Some self.old.text) (Some self.new.text)) }
        ensures called { self.new.calls ≡ one_more self.old.calls }
        ensures later { self.old.faults ≤ self.new.faults }
    {
        self.calls = self.calls.saturating_add(1);
        let fails = self.failing.as_slice().contains(&self.calls);
        let left = self.room as usize - self.text.len();
        if !fails && bytes.len() <= left && self.text.extend_from_slice(bytes).is_ok() {
            return Ok(());
        }
        self.faults = self.faults.saturating_add(1);
        Err(SinkFailed)
    }
}
