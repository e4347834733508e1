//! Files that are read ahead, and files and a sink in memory.

use crate::parts::same;
use ds_base::List;
use ds_files::{FileError, Files, HostFiles, MemoryFiles, MemorySink, Sink, fetch_ahead};
use std::alloc::Global;
use std::fs::remove_file;
use std::process::Abort;
use std::rt;
use std::thread::Threads;

/// A file is replaced.
fn puts<F: Files>(rt: &impl Abort, alloc: Global, files: &mut F, name: &str, bytes: &[u8]) {
    files.replace(alloc, name, bytes).expect(rt, "a file");
}

/// A read of at most so many bytes gives these.
fn gives<F: Files>(
    rt: &impl Abort,
    alloc: Global,
    files: &mut F,
    name: &str,
    most: u64,
    want: &[u8],
) {
    let bytes = files.read(alloc, name, most).expect(rt, "a file");
    same(rt, bytes.as_slice(), want);
}

/// A read of at most so many bytes fails.
fn fails<F: Files>(
    rt: &impl Abort,
    alloc: Global,
    files: &mut F,
    name: &str,
    most: u64,
    want: FileError,
) {
    let seen = files.read(alloc, name, most).err();
    same(rt, seen, Some(want));
}

/// A file of the system is removed.
fn removes<R: Abort + rt::Files>(rt: &R, name: &str) {
    assert!(rt; remove_file(rt, name).is_ok());
}

/// Files are replaced, the first over a longer one.
fn puts_all<F: Files>(rt: &impl Abort, alloc: Global, files: &mut F) {
    puts(rt, alloc, files, "first", b"longer one");
    puts(rt, alloc, files, "first", b"abcdef");
    puts(rt, alloc, files, "second", b"gh");
    puts(rt, alloc, files, "third", b"i");
}

/// Only what was read ahead is answered. Each file is given out once.
fn gives_once<F: Files>(rt: &impl Abort, alloc: Global, files: &mut F) {
    gives(rt, alloc, files, "first", 6, b"abcdef");
    fails(rt, alloc, files, "first", 6, FileError::Missing);
    fails(rt, alloc, files, "none", 3, FileError::Missing);
    fails(rt, alloc, files, "second", 1, FileError::TooLong);
    fails(rt, alloc, files, "third", 9, FileError::Missing);
}

/// Files are read ahead by two workers: the eight bytes of the first two are as many as may be kept. They are gone when they
/// are asked for.
fn are_answered<R: Abort + Threads + Sync + rt::Files, F: Files + Sync>(
    rt: &R,
    alloc: Global,
    files: &mut F,
) {
    puts_all(rt, alloc, files);
    let names = ["first", "none", "second", "third"];
    let ahead = fetch_ahead(rt, alloc, 2, &names, 8, files);
    files.keep(ahead);
    removes(rt, "first");
    removes(rt, "second");
    removes(rt, "third");
    gives_once(rt, alloc, files);
}

#[test]
fn files_that_were_read_ahead_are_answered_as_others(rt: HostRuntime) {
    let alloc = rt.alloc();
    let mut files = HostFiles::new(&rt);
    are_answered(&rt, alloc, &mut files);
}

/// The number of the call that fails.
fn failing(rt: &impl Abort, alloc: Global, number: u64) -> List<u64> {
    let mut numbers = List::new(alloc);
    numbers.push(number).expect(rt, "memory");
    numbers
}

#[test]
fn files_in_memory_fail_where_they_are_told_to(rt: HostRuntime) {
    let alloc = rt.alloc();
    let mut files = MemoryFiles::new(alloc, failing(&rt, alloc, 3));
    puts(&rt, alloc, &mut files, "first", b"abcdef");
    gives(&rt, alloc, &mut files, "first", 6, b"abcdef");
    fails(&rt, alloc, &mut files, "first", 6, FileError::Failed);
    drop(files);
}

/// A sink takes a piece or not, and has this text then.
fn takes(rt: &impl Abort, sink: &mut MemorySink, piece: &[u8], taken: bool, text: &[u8]) {
    let seen = sink.put(piece).is_ok();
    same(rt, (seen, sink.text()), (taken, text));
}

#[test]
fn a_sink_in_memory_fails_where_it_is_told_to(rt: HostRuntime) {
    let alloc = rt.alloc();
    let numbers = failing(&rt, alloc, 2);
    let mut sink = MemorySink::new(alloc, 4, numbers).expect(&rt, "memory");
    takes(&rt, &mut sink, b"ab", true, b"ab");
    takes(&rt, &mut sink, b"c", false, b"ab");
    drop(sink);
}
