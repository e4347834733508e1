//! Lists, bytes and marks.

use crate::parts::same;
use ds_base::{BitRow, Bytes, List, NoMemory};
use std::process::Abort;

#[test]
fn a_list_takes_items_last(rt: HostRuntime) {
    let mut list: List<u32> = List::new(rt.alloc());
    list.push(7).expect(&rt, "memory");
    list.push(9).expect(&rt, "memory");
    same(&rt, list.as_slice(), [7, 9].as_slice());
}

/// There is memory for these bytes.
fn has(rt: &impl Abort, bytes: Result<Bytes, NoMemory>, want: &[u8]) {
    let bytes = bytes.expect(rt, "memory");
    same(rt, bytes.as_slice(), want);
}

#[test]
fn bytes_are_copied_and_extended(rt: HostRuntime) {
    let alloc = rt.alloc();
    let mut bytes = Bytes::new(alloc);
    bytes.extend(b"abcd").expect(&rt, "memory");
    bytes.push(b'e').expect(&rt, "memory");
    has(&rt, bytes.copy(alloc), b"abcde");
    has(&rt, Bytes::from_slice(alloc, b"ab"), b"ab");
    has(&rt, Bytes::zeros(alloc, 3), &[0, 0, 0]);
}

#[test]
fn a_mark_is_set_alone(rt: HostRuntime) {
    let mut row = BitRow::new(rt.alloc(), 3).expect(&rt, "memory");
    row.set(1);
    let marks = (row.get(0), row.get(1), row.get(2));
    same(&rt, marks, (false, true, false));
}
