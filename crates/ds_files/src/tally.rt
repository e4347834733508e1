//! Counts of calls, and of what went wrong.

ghost use Rattle.std.specs.Prelude.{◌≡◌};

use crate::files::FileError;
use std::marker::Model;

/// Counts of calls, and of what went wrong, each from 0. A count that stands at its last value stays there.
#[derive(Drop)]
pub struct Tally {
    calls: u64,
    faults: u64,
    misses: u64,
    longs: u64,
}

impl Model for Tally {
    ghost use Rattle.ds_files.specs.Outside.{Counts};

    ghost Value = { Counts };

    ghost view = { λ t. record { calls = t.calls; faults = t.faults; misses = t.misses; longs = t.longs } };
}

impl Tally {
    ghost use Rattle.ds_files.specs.Outside.{IsLater, called, one_more};
    ghost use Rattle.ds_files.specs.Counting.{no_counts, counted, is_full};

    /// Nothing was counted.
    pub fn new() -> Tally
        ensures { result ≡ no_counts }
    {
        Tally {
            calls: 0,
            faults: 0,
            misses: 0,
            longs: 0,
        }
    }

    /// Counts a call, and gives its number, from 1.
    pub fn call(&mut self) -> u64
        ensures number { result ≡ one_more self.old.calls }
        ensures counted { self.new ≡ called self.old }
        ensures later { IsLater self.old self.new }
    {
        self.calls = self.calls.saturating_add(1);
        self.calls
    }

    /// Counts an error, and gives it back. Want of memory is not counted.
    pub fn count(&mut self, error: FileError) -> FileError
        ensures error { result ≡ error }
        ensures counted { self.new ≡ counted error self.old }
        ensures later { IsLater self.old self.new }
    {
        match error {
            FileError::Missing => self.misses = self.misses.saturating_add(1),
            FileError::Failed => self.faults = self.faults.saturating_add(1),
            FileError::TooLong => self.longs = self.longs.saturating_add(1),
            FileError::NoMemory => {}
        }
        error
    }

    /// Whether the count of failures or that of missing files stands at its last value.
    pub fn is_full(&self) -> bool
        ensures { result ≡ is_full self.now }
    {
        self.faults == u64::MAX || self.misses == u64::MAX
    }
}
