use crate::Cache;
use ds_base::{Bytes, List};
use stab_map::{MapEntry, MapObject};
use std::alloc::Global;
use std::process::Abort;
use std::sync::Wait;
use std::thread;

const CPU_TYPE_ARM64: u32 = 0x0100_000c;

/// An object without commands.
#[rattlefmt::skip]
const FILE: [u8; 32] = [
    0xcf, 0xfa, 0xed, 0xfe, // magic
    0x0c, 0, 0, 1, // CPU type
    0, 0, 0, 0, // CPU subtype
    1, 0, 0, 0, // file type
    0, 0, 0, 0, // number of commands
    0, 0, 0, 0, // their size
    0, 0, 0, 0, // flags
    0, 0, 0, 0,
];

/// A part of a debug map: a function of this size.
fn part(rt: &impl Abort, alloc: Global, size: u64) -> MapObject {
    let mut entries = List::new(alloc);
    entries.push(entry(rt, alloc, size)).expect(rt, "memory");
    MapObject {
        path: Bytes::from_slice(alloc, b"main.o").expect(rt, "memory"),
        file: Bytes::from_slice(alloc, b"main.o").expect(rt, "memory"),
        member: None,
        entries,
    }
}

fn entry(rt: &impl Abort, alloc: Global, size: u64) -> MapEntry {
    MapEntry {
        name: Bytes::from_slice(alloc, b"_main").expect(rt, "memory"),
        linked: 0x1000,
        size: Some(size),
    }
}

fn is_analysed<R: Abort + Wait>(rt: &R, alloc: Global, cache: &Cache, object: &MapObject) {
    let seen = cache.analysed(rt, alloc, &FILE, object, CPU_TYPE_ARM64);
    assert!(rt; seen.is_ok());
}

fn is_refused<R: Abort + Wait>(rt: &R, alloc: Global, cache: &Cache, object: &MapObject) {
    let seen = cache.analysed(rt, alloc, &FILE, object, 7);
    assert!(rt; seen.is_err());
}

fn keeps(rt: &impl Abort, cache: Cache, count: usize) {
    let shelf = cache.close();
    assert_eq!(rt; shelf.kept().len(), count);
}

#[test]
fn one_is_kept_for_each_part_of_a_debug_map(rt: HostRuntime) {
    let alloc = rt.alloc();
    let cache = Cache::new(alloc, 4).expect(&rt, "memory");
    let whole = part(&rt, alloc, 0x20);
    let half = part(&rt, alloc, 0x10);
    thread::join(
        &rt,
        || is_analysed(&rt, alloc, &cache, &whole),
        || is_analysed(&rt, alloc, &cache, &whole),
    );
    is_analysed(&rt, alloc, &cache, &half);
    is_refused(&rt, alloc, &cache, &half);
    keeps(&rt, cache, 2);
}

#[test]
fn the_oldest_goes_where_the_shelf_is_full(rt: HostRuntime) {
    let alloc = rt.alloc();
    let cache = Cache::new(alloc, 1).expect(&rt, "memory");
    let whole = part(&rt, alloc, 0x20);
    let half = part(&rt, alloc, 0x10);
    is_analysed(&rt, alloc, &cache, &whole);
    is_analysed(&rt, alloc, &cache, &half);
    is_analysed(&rt, alloc, &cache, &half);
    keeps(&rt, cache, 1);
}
