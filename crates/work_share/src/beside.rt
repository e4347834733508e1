//! Memory that is taken, and what is needed no more given back, beside other work.

use crate::context::Workers;
use std::alloc::Global;
use std::thread::{JoinHandle, Threads, spawn};

/// A thread that takes memory, or none. To touch memory for the first time is most of what it costs, and how much is needed
/// is guessed: what is missing is taken later, and nothing depends on it.
pub type Rooming = Option<JoinHandle<Vec<u8>>>;

/// Starts a thread that takes so many bytes, where more than one may work.
pub fn start_room<R: Threads>(workers: &Workers<R>, size: usize) -> Rooming {
    if workers.count < 2 {
        return None;
    }
    let alloc = workers.alloc;
    spawn(workers.rt, move || touched(alloc, size)).ok()
}

/// The memory that a thread took, or none.
pub fn started_room<R: Threads>(workers: &Workers<R>, rooming: Rooming) -> Vec<u8> {
    match rooming {
        Some(thread) => thread.join(workers.rt),
        None => Vec::new(workers.alloc),
    }
}

/// Lets something large go, in a thread of its own where more than one may work. Nobody waits for it.
pub fn let_go<R: Threads, T: Send + Drop + 'static>(workers: &Workers<R>, it: T) {
    if workers.count < 2 {
        return;
    }
    let _going = spawn(workers.rt, move || drop(it)).ok();
}

/// So many bytes, or none where there is no memory for them.
fn touched(alloc: Global, size: usize) -> Vec<u8> {
    match vec![in alloc; 0; size] {
        Ok(room) => room,
        Err(_) => Vec::new(alloc),
    }
}
