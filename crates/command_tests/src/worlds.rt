//! What a command finds, how it is run, and what it leaves.

use crate::bytes::{OBJECT, PLIST, PROGRAM, SECTIONS, SECTIONS_AT};
use ds_base::List;
use ds_files::{Gate, MemoryFiles, MemorySink, OpenGate};
use link_cli::link_main;
use link_status::{Status, code};
use std::alloc::Global;
use std::process::Abort;
use std::thread::Threads;

/// What a command finds: the file of a program `a.out`, that of its object `m.o`, and both files of an earlier bundle.
#[derive(Clone, Copy)]
pub(crate) struct Given<'a> {
    pub program: &'a [u8],
    pub object: &'a [u8],
    /// The sections of the image that is written, if one is.
    pub sections: &'static [u8],
    /// Which call of the sink fails; 0 is none.
    pub put: u64,
}

/// The first worked program.
pub(crate) const FIRST: Given<'static> = Given {
    program: PROGRAM,
    object: OBJECT,
    sections: SECTIONS,
    put: 0,
};

/// The call of the files that fails, or 0; a line of words; and how the command ends: the exit code, the number of the file or
/// of the limit that is told of, the text that is told, and how many files of the bundle are new then, Info.plist first.
pub(crate) type Row<'a> = (u64, &'a str, u8, u64, &'a [u8], u8);

/// The line of a link.
pub(crate) const LINK: &str = "-o bundle a.out";

/// What stands in both files of the bundle at first.
const EARLIER: &[u8] = b"earlier";

const PLIST_NAME: &str = "bundle/Contents/Info.plist";

const IMAGE_NAME: &str = "bundle/Contents/Resources/DWARF/a.out";

/// Files and a sink.
#[derive(Drop)]
pub(crate) struct World {
    pub files: MemoryFiles,
    pub sink: MemorySink,
}

/// What was seen is what was wanted.
pub(crate) fn same<T: Copy + PartialEq>(rt: &impl Abort, seen: T, want: T, words: &str) {
    assert!(rt; seen == want, "at {words}");
}

/// The list of one number, or of none where it is 0.
fn numbers(rt: &impl Abort, alloc: Global, number: u64) -> List<u64> {
    let mut list = List::new(alloc);
    if number > 0 {
        list.push(number).expect(rt, "memory");
    }
    list
}

/// Puts a file.
pub(crate) fn put_file(
    rt: &impl Abort,
    alloc: Global,
    files: &mut MemoryFiles,
    name: &str,
    bytes: &[u8],
) {
    files.set(alloc, name, bytes).expect(rt, "memory");
}

/// The files that a command finds, of which this call fails, and an empty sink.
pub(crate) fn world_of(rt: &impl Abort, alloc: Global, given: &Given, call: u64) -> World {
    let mut files = MemoryFiles::new(alloc, numbers(rt, alloc, call));
    put_file(rt, alloc, &mut files, PLIST_NAME, EARLIER);
    put_file(rt, alloc, &mut files, IMAGE_NAME, EARLIER);
    put_file(rt, alloc, &mut files, "a.out", given.program);
    put_file(rt, alloc, &mut files, "m.o", given.object);
    let failing = numbers(rt, alloc, given.put);
    let sink = MemorySink::new(alloc, 1 << 16, failing).expect(rt, "memory");
    World { files, sink }
}

/// Puts the words of a line last, which stand between spaces.
fn push_words(rt: &impl Abort, alloc: Global, words: &mut Vec<String>, line: &str) {
    for word in line.split_whitespace() {
        let word = String::from_str(alloc, word).expect(rt, "memory");
        words.push(word).expect(rt, "memory");
    }
}

/// How the command of a line ends, by so many threads.
pub(crate) fn run<R: Threads + Abort + Sync, G: Gate + Sync>(
    rt: &R,
    alloc: Global,
    threads: &str,
    line: &str,
    world: &mut World,
    gate: &G,
) -> Status {
    let mut words = Vec::new(alloc);
    push_words(rt, alloc, &mut words, threads);
    push_words(rt, alloc, &mut words, line);
    let files = &mut world.files;
    link_main(rt, alloc, words.as_slice(), files, &mut world.sink, gate)
}

/// The number of the file or of the limit of which a status tells.
fn number_of(status: &Status) -> u64 {
    match *status {
        Status::Missing { file } => u64::from(file),
        Status::ReadFault { file } => u64::from(file),
        Status::Faulty { file, .. } => u64::from(file),
        Status::WriteFault { file } => u64::from(file),
        Status::Limit { number, .. } => number,
        Status::Done | Status::Usage | Status::NoMemory | Status::MessageFault => 0,
    }
}

/// The exit code of a status, and its number.
fn seen(status: &Status) -> (u8, u64) {
    (code(status), number_of(status))
}

/// A file that is there has these bytes from a place on.
fn file_is(rt: &impl Abort, files: &MemoryFiles, name: &str, from: usize, bytes: &[u8]) {
    let file = files.file(name).expect(rt, "a file");
    let (_, part) = file.split_at_checked(from).expect(rt, "a whole file");
    same(rt, part, bytes, name);
}

/// The files that were found are as they were, but for so many files of the bundle, which are new, Info.plist first.
fn files_are(rt: &impl Abort, files: &MemoryFiles, given: &Given, written: u8) {
    let plist = if written > 0 {
        PLIST.as_bytes()
    } else {
        EARLIER
    };
    let (from, image) = if written > 1 {
        (SECTIONS_AT, given.sections)
    } else {
        (0, EARLIER)
    };
    file_is(rt, files, "a.out", 0, given.program);
    file_is(rt, files, "m.o", 0, given.object);
    file_is(rt, files, PLIST_NAME, 0, plist);
    file_is(rt, files, IMAGE_NAME, from, image);
}

/// The command of a row ends so, by so many threads.
pub(crate) fn ends<R: Threads + Abort + Sync>(
    rt: &R,
    alloc: Global,
    world: &mut World,
    given: &Given,
    threads: &str,
    row: &Row,
) {
    let (_, line, code, number, told, written) = *row;
    let status = run(rt, alloc, threads, line, world, &OpenGate::new());
    same(rt, seen(&status), (code, number), line);
    same(rt, world.sink.text(), told, line);
    files_are(rt, &world.files, given, written);
}

/// The command of a row over what it finds ends so, by so many threads.
pub(crate) fn answers<R: Threads + Abort + Sync>(
    rt: &R,
    alloc: Global,
    given: &Given,
    threads: &str,
    row: &Row,
) {
    let mut world = world_of(rt, alloc, given, row.0);
    ends(rt, alloc, &mut world, given, threads, row);
    drop(world);
}

/// The command of each row over what it finds ends so, by so many threads.
pub(crate) fn answer<R: Threads + Abort + Sync>(
    rt: &R,
    alloc: Global,
    given: &Given,
    threads: &str,
    rows: &[Row],
) {
    for row in rows {
        answers(rt, alloc, given, threads, row);
    }
}

/// One thread, two, and more than there are objects.
pub(crate) const THREADS: [&str; 3] = ["-j 1", "-j 2", "-j 8"];

/// The command of each row over what it finds ends so, by one thread, by two and by eight.
pub(crate) fn answer_each<R: Threads + Abort + Sync>(
    rt: &R,
    alloc: Global,
    given: &Given,
    rows: &[Row],
) {
    for threads in THREADS {
        answer(rt, alloc, given, threads, rows);
    }
}
