//! The gate.

use ds_files::Gate;
use std::hint::spin_loop;
use std::sync::atomic::Ordering::SeqCst;
use std::sync::atomic::{AtomicBool, AtomicU32};

/// Each of the first two items of a phase waits here until the other has come, for so many turns at most.
#[derive(Drop)]
pub struct Meeting {
    /// How many came.
    arrived: AtomicU32,
    /// Whether one waited in vain.
    alone: AtomicBool,
}

const TURNS: u32 = 1 << 24;

impl Meeting {
    /// A gate to which none has come.
    pub fn new() -> Meeting {
        Meeting {
            arrived: AtomicU32::new(0),
            alone: AtomicBool::new(false),
        }
    }

    /// How many came, two in each phase, unless one waited in vain.
    pub fn met(&self) -> Option<u32> {
        if self.alone.load(SeqCst) {
            None
        } else {
            Some(self.arrived.load(SeqCst))
        }
    }
}

impl Gate for Meeting {
    fn pass(&self, _phase: u32, item: u32) {
        if item > 1 {
            return;
        }
        let before = self.arrived.fetch_add(1, SeqCst);
        for _ in 0..TURNS {
            if self.arrived.load(SeqCst) > before | 1 {
                return;
            }
            spin_loop();
        }
        self.alone.store(true, SeqCst);
    }
}
