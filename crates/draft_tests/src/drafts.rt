//! A long unit as a draft, and its bytes once all has its place.

ghost use Rattle.std.specs.Prelude.{◌≡◌, [], length};
ghost use Rattle.patches.specs.Filling.{Filling, filled};

use crate::parts::has_at;
use crate::units::constants;
use ds_base::Bytes;
use std::alloc::Global;
use std::process::Abort;
use std::thread::Threads;
use unit_draft::{Draft, Outside, draft_unit, emit_draft};

/// The draft that so many threads make of the first unit of a graph.
fn drafted<R: Threads + Abort + Sync>(rt: &R, alloc: Global, workers: u32) -> Draft
    ensures settled { result.info.own ≡ [] }
    ensures size { (f : Filling) → length (filled result.info f) ≡ result.len }
{
    let unit = constants(rt, alloc);
    let draft = draft_unit(rt, alloc, workers, &unit, 0);
    drop(unit);
    draft.expect(rt, "a draft")
}

/// The bytes of a drafted unit whose abbreviations stand at 0x20.
fn emitted(rt: &impl Abort, alloc: Global, draft: &Draft) -> Bytes
    requires settled { draft.now.info.own ≡ [] }
    requires size { (f : Filling) → length (filled draft.now.info f) ≡ draft.now.len }
{
    let outside = Outside {
        table: 0x20,
        lines: 0,
        ranges: 0,
        locations: 0,
        texts: &[],
        line_texts: &[],
        starts: &[],
        drafts: &[],
        end: 0,
    };
    let mut room = Bytes::zeros(alloc, draft.len as usize).expect(rt, "memory");
    emit_draft(draft, &outside, room.as_mut_slice());
    room
}

/// The unit's header and its first two entries.
#[rattlefmt::skip]
const FRONT: [u8; 22] = [
    0xa9, 0x86, 1, 0,  4, 0,  0x20, 0, 0, 0,  8,
    1,
    2,  0, 0, 0, 0,
    2,  1, 0, 0, 0,
];

/// The first stretch that one thread hands to the other ends at node 2^13, which is constant 8,191.
#[rattlefmt::skip]
const BETWEEN: [u8; 15] = [
    2,  0xfe, 0x1f, 0, 0,
    2,  0xff, 0x1f, 0, 0,
    2,  0, 0x20, 0, 0,
];

/// The last entry, and the end of the list.
const END: [u8; 6] = [2, 0x1f, 0x4e, 0, 0, 0];

/// The bytes of the unit.
fn has_constants(rt: &impl Abort, info: &[u8]) {
    assert!(rt; info.len() == 100_013);
    has_at(rt, info, 0, &FRONT);
    has_at(rt, info, 40_962, &BETWEEN);
    has_at(rt, info, 100_007, &END);
}

/// A draft is of the unit.
fn is_whole(rt: &impl Abort, alloc: Global, draft: Draft)
    requires settled { draft.info.own ≡ [] }
    requires size { (f : Filling) → length (filled draft.info f) ≡ draft.len }
{
    let info = emitted(rt, alloc, &draft);
    drop(draft);
    has_constants(rt, info.as_slice());
}

#[test]
fn one_thread_drafts_a_long_unit(rt: HostRuntime) {
    is_whole(&rt, rt.alloc(), drafted(&rt, rt.alloc(), 1));
}

#[test]
fn two_threads_draft_a_long_unit(rt: HostRuntime) {
    is_whole(&rt, rt.alloc(), drafted(&rt, rt.alloc(), 2));
}
