//! Jobs done by several workers, who draw their items from one counter.

ghost use Rattle.std.specs.Prelude.{◌≡◌, ◌<◌, ◌≤◌, length, slice_index};

use crate::parts::same;
use ds_base::{List, NoMemory};
use ds_files::{Gate, OpenGate};
use std::alloc::Global;
use std::hint::spin_loop;
use std::process::Abort;
use std::sync::atomic::AtomicBool;
use std::sync::atomic::Ordering::SeqCst;
use std::thread::Threads;
use work_share::{Job, Workers, each, each_in_order};

/// The number that stands at an item's place.
#[derive(Drop)]
struct NumberAt<'a> {
    numbers: &'a [u32],
}

impl<'a> Job for NumberAt<'a> {
    type Out = u32;

    ghost takes = { λ job item. item < length job.numbers.now };

    ghost gives = { λ job item out. out ≡ slice_index job.numbers.now item };

    fn run(&self, item: u32) -> u32 {
        self.numbers[item as usize]
    }
}

/// The gate holds item 0 until item 1 has passed, for so many turns at most.
#[derive(Drop)]
struct HoldsFirst {
    second_passed: AtomicBool,
    gave_up: AtomicBool,
}

const TURNS: u32 = 1 << 24;

impl Gate for HoldsFirst {
    fn pass(&self, _phase: u32, item: u32) {
        if item == 1 {
            self.second_passed.store(true, SeqCst);
        }
        if item != 0 {
            return;
        }
        for _ in 0..TURNS {
            if self.second_passed.load(SeqCst) {
                return;
            }
            spin_loop();
        }
        self.gave_up.store(true, SeqCst);
    }
}

/// What workers gave are the numbers.
fn are_given(rt: &impl Abort, outs: Result<List<u32>, NoMemory>, numbers: &[u32]) {
    let outs = outs.expect(rt, "memory");
    same(rt, outs.as_slice(), numbers);
}

/// So many workers give each number at its place.
fn gives_all<R: Threads + Abort + Sync, G: Gate + Sync>(
    rt: &R,
    alloc: Global,
    count: u32,
    numbers: &[u32],
    gate: &G,
)
    requires { (1 ≤ count) × (count ≤ 64) × (length numbers.now < 100) }
{
    let job = NumberAt { numbers };
    let workers = Workers { rt, alloc, count };
    let outs = each(&workers, numbers.len() as u32, 0, gate, &job);
    are_given(rt, outs, numbers);
}

/// Three workers give each number at its place, in whatever order the items are begun.
fn gives_all_in_order<R: Threads + Abort + Sync>(
    rt: &R,
    alloc: Global,
    order: &[u32],
    numbers: &[u32],
)
    requires { length numbers.now < 100 }
{
    let job = NumberAt { numbers };
    let gate = OpenGate::new();
    let workers = Workers {
        rt,
        alloc,
        count: 3,
    };
    let outs = each_in_order(&workers, numbers.len() as u32, order, 0, &gate, &job);
    are_given(rt, outs, numbers);
}

#[test]
fn results_stand_in_the_order_of_the_items(rt: HostRuntime) {
    let alloc = rt.alloc();
    let numbers = [7, 1, 9, 2, 5, 0, 3];
    gives_all(&rt, alloc, 3, &[], &OpenGate::new());
    gives_all(&rt, alloc, 1, &numbers, &OpenGate::new());
    gives_all(&rt, alloc, 3, &numbers, &OpenGate::new());
    gives_all(&rt, alloc, 64, &numbers, &OpenGate::new());
}

#[test]
fn an_order_is_a_hint(rt: HostRuntime) {
    let alloc = rt.alloc();
    let numbers = [7, 1, 9];
    gives_all_in_order(&rt, alloc, &[2, 1, 0], &numbers);
    gives_all_in_order(&rt, alloc, &[1, 3, 1, 1, 9], &numbers);
    gives_all_in_order(&rt, alloc, &[], &numbers);
}

#[test]
fn two_workers_run_two_items_beside_each_other(rt: HostRuntime) {
    let gate = HoldsFirst {
        second_passed: AtomicBool::new(false),
        gave_up: AtomicBool::new(false),
    };
    gives_all(&rt, rt.alloc(), 2, &[4, 6], &gate);
    assert!(&rt; !gate.gave_up.load(SeqCst));
}
