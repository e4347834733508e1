//! Reads and replaces files of the system, links a program among them, and prints what they hold.
//!
//! Layer: top. A stored run of the trusted edge: `data/` has the files that [`HostFiles`] reads, and `stdout` what
//! [`HostSink`] writes of them.
#![tactic(auto)]

use ds_files::{FileError, Files, HostFiles, HostSink, OpenGate, Sink};
use link_cli::link_main;
use link_status::Status;
use std::alloc::{AllocError, Global};
use std::thread::Threads;

/// Where the bundle of `hello` has its property list and its image.
const PLIST: &str = "hello.dSYM/Contents/Info.plist";

const IMAGE: &str = "hello.dSYM/Contents/Resources/DWARF/hello";

/// Puts a line of a file's name and what is said of it.
fn tell<S: Sink>(sink: &mut S, name: &str, what: &[u8]) {
    let _ = sink.put(name.as_bytes());
    let _ = sink.put(b": ");
    let _ = sink.put(what);
    let _ = sink.put(b"\n");
}

/// The words for an error.
fn words(error: FileError) -> &'static [u8] {
    match error {
        FileError::Missing => b"missing",
        FileError::Failed => b"failed",
        FileError::TooLong => b"too long",
        FileError::NoMemory => b"no memory",
    }
}

/// Reads a file of at most so many bytes.
fn read<F: Files, S: Sink>(alloc: Global, files: &mut F, sink: &mut S, name: &str, most: u64) {
    match files.read(alloc, name, most) {
        Ok(bytes) => tell(sink, name, bytes.as_slice()),
        Err(error) => tell(sink, name, words(error)),
    }
}

/// Replaces a file.
fn replace<F: Files, S: Sink>(
    alloc: Global,
    files: &mut F,
    sink: &mut S,
    name: &str,
    bytes: &[u8],
) {
    match files.replace(alloc, name, bytes) {
        Ok(()) => tell(sink, name, b"replaced"),
        Err(error) => tell(sink, name, words(error)),
    }
}

/// Links the program of a name.
fn link<R: Threads + Sync, F: Files + Sync, S: Sink>(
    rt: &R,
    alloc: Global,
    files: &mut F,
    sink: &mut S,
    name: &str,
) -> Result<Status, AllocError> {
    let mut words = Vec::new(alloc);
    words.push(String::from_str(alloc, name)?)?;
    let gate = OpenGate::new();
    Ok(link_main(rt, alloc, words.as_slice(), files, sink, &gate))
}

/// Says how a link of the program of a name ends.
fn tell_link<R: Threads + Sync, F: Files + Sync, S: Sink>(
    rt: &R,
    alloc: Global,
    files: &mut F,
    sink: &mut S,
    name: &str,
) {
    match link(rt, alloc, files, sink, name) {
        Ok(Status::Done) => tell(sink, name, b"linked"),
        Ok(_) => tell(sink, name, b"not linked"),
        Err(AllocError) => tell(sink, name, b"no memory"),
    }
}

fn main(rt: HostRuntime) {
    let alloc = rt.alloc();
    let mut files = HostFiles::new(&rt);
    let mut sink = HostSink::new(&rt);
    read(alloc, &mut files, &mut sink, "text", 9);
    read(alloc, &mut files, &mut sink, "text", 5);
    read(alloc, &mut files, &mut sink, "text", 4);
    read(alloc, &mut files, &mut sink, "empty", 0);
    read(alloc, &mut files, &mut sink, "none", 9);
    read(alloc, &mut files, &mut sink, ".", 9);
    replace(alloc, &mut files, &mut sink, "a/b/new", b"longer text");
    replace(alloc, &mut files, &mut sink, "a/b/new", b"new text");
    read(alloc, &mut files, &mut sink, "a/b/new", 99);
    replace(alloc, &mut files, &mut sink, "text/c", b"");
    read(alloc, &mut files, &mut sink, "text/c", 9);
    read(alloc, &mut files, &mut sink, "text", 9);
    tell_link(&rt, alloc, &mut files, &mut sink, "hello");
    read(alloc, &mut files, &mut sink, PLIST, 4096);
    read(alloc, &mut files, &mut sink, IMAGE, 4096);
    tell_link(&rt, alloc, &mut files, &mut sink, "main.o");
}
