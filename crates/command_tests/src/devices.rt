//! Files and a sink of which one call fails, each call of a link in turn; and threads that share a link.

use crate::bytes::{MERGED, OBJECT, PAIR, PROGRAM, SECTIONS};
use crate::worlds::{
    FIRST, Given, LINK, Row, answer, answer_each, ends, put_file, run, same, world_of,
};
use link_status::code;
use meeting_gate::Meeting;
use std::alloc::Global;
use std::process::Abort;
use std::thread::Threads;

const NO_READ: &[u8] = b"dsymlink: read fault: a.out\n";

const NO_OBJECT: &[u8] = b"dsymlink: read fault: m.o\n";

const NO_PLIST: &[u8] = b"dsymlink: write fault: bundle/Contents/Info.plist\n";

const NO_IMAGE: &[u8] = b"dsymlink: write fault: bundle/Contents/Resources/DWARF/a.out\n";

/// How the link of the first program ends where a call fails. It makes four calls.
const CALLS: [Row<'static>; 4] = [
    (1, LINK, 3, 0, NO_READ, 0),
    (2, LINK, 3, 1, NO_OBJECT, 0),
    (3, LINK, 6, 0, NO_PLIST, 0),
    (4, LINK, 6, 1, NO_IMAGE, 1),
];

/// The command of a row over the first program ends so, and the same link once more, of which no call fails, is done.
fn mended<R: Threads + Abort + Sync>(rt: &R, alloc: Global, threads: &str, row: &Row) {
    let again = (0, LINK, 0, 0, row.4, 2);
    let mut world = world_of(rt, alloc, &FIRST, row.0);
    ends(rt, alloc, &mut world, &FIRST, threads, row);
    ends(rt, alloc, &mut world, &FIRST, threads, &again);
    drop(world);
}

/// So it is with each of these rows.
fn each_mended<R: Threads + Abort + Sync>(rt: &R, alloc: Global, threads: &str, rows: &[Row]) {
    for row in rows {
        mended(rt, alloc, threads, row);
    }
}

const LET_GO: &str = "--keep-going -o bundle a.out";

const GONE: &[u8] = b"dsymlink: warning: missing: n.o\n";

const NO_FIRST: &[u8] = b"dsymlink: read fault: n.o\n";

const NO_SECOND: &[u8] = b"dsymlink: warning: missing: n.o\ndsymlink: read fault: m.o\n";

const NO_PLIST_THEN: &[u8] =
    b"dsymlink: warning: missing: n.o\ndsymlink: write fault: bundle/Contents/Info.plist\n";

const NO_IMAGE_THEN: &[u8] =
    b"dsymlink: warning: missing: n.o\ndsymlink: write fault: bundle/Contents/Resources/DWARF/a.out\n";

/// What a link of two objects finds: the file of the first isn't there.
const HALF: Given<'static> = Given {
    program: PAIR,
    object: OBJECT,
    sections: SECTIONS,
    put: 0,
};

/// How it ends where a call fails. The file that isn't there is let go, or not.
const HALF_CALLS: [Row<'static>; 7] = [
    (1, LET_GO, 3, 0, NO_READ, 0),
    (2, LET_GO, 3, 1, NO_FIRST, 0),
    (3, LET_GO, 3, 2, NO_SECOND, 0),
    (4, LET_GO, 6, 0, NO_PLIST_THEN, 0),
    (5, LET_GO, 6, 1, NO_IMAGE_THEN, 1),
    (6, LET_GO, 0, 0, GONE, 2),
    (0, LINK, 2, 1, b"dsymlink: missing: n.o\n", 0),
];

#[test]
fn each_call_of_the_files_that_fails_is_told_of_its_file_behind_what_was_let_go(rt: HostRuntime) {
    let alloc = rt.alloc();
    each_mended(&rt, alloc, "-j 1", &CALLS);
    each_mended(&rt, alloc, "-j 2", &CALLS);
    each_mended(&rt, alloc, "-j 8", &CALLS);
    answer_each(&rt, alloc, &HALF, &HALF_CALLS);
}

/// The first worked program, and a sink that fails.
const UNHEARD: Given<'static> = Given {
    program: PROGRAM,
    object: OBJECT,
    sections: SECTIONS,
    put: 1,
};

/// Nothing is told then. A link that is done tells nothing anyway, and makes no call of the sink.
const UNTOLD: [Row<'static>; 7] = [
    (0, LINK, 0, 0, b"", 2),
    (0, "--statistics -o bundle a.out", 8, 0, b"", 2),
    (0, "--dump-map -o bundle a.out", 8, 0, b"", 0),
    (0, "--generate 1 -o bundle a.out", 8, 0, b"", 0),
    (0, "-o bundle none", 8, 0, b"", 0),
    (0, "-o bundle m.o", 8, 0, b"", 0),
    (0, "-o bundle", 8, 0, b"", 0),
];

#[test]
fn a_message_that_is_not_put_out_takes_the_place_of_the_status(rt: HostRuntime) {
    answer(&rt, rt.alloc(), &UNHEARD, "", &UNTOLD);
}

/// What a link of two objects finds, each of which has a type that is merged.
const BOTH: Given<'static> = Given {
    program: PAIR,
    object: MERGED,
    sections: SECTIONS,
    put: 0,
};

/// Two threads meet in each phase of what a line asks, so that so many came in all.
fn share<R: Threads + Abort + Sync>(rt: &R, alloc: Global, line: &str, count: u64) {
    let mut world = world_of(rt, alloc, &BOTH, 0);
    put_file(rt, alloc, &mut world.files, "n.o", MERGED);
    let gate = Meeting::new();
    let status = run(rt, alloc, "-j 2", line, &mut world, &gate);
    drop(world);
    let met = u64::from(gate.met().unwrap_or(0));
    same(rt, (code(&status), met), (0, count), line);
}

// Of the four phases names have one, where types are merged alone.
#[test]
fn two_threads_share_each_phase_under_the_gate_that_was_given(rt: HostRuntime) {
    let alloc = rt.alloc();
    share(&rt, alloc, "--generate 2 a.out", 8);
    share(&rt, alloc, LINK, 8);
    share(&rt, alloc, "--no-odr --generate 2 a.out", 6);
    share(&rt, alloc, "--no-odr -o bundle a.out", 6);
}
