//! How commands end, what they tell, and what stands in the files then.

use crate::worlds::{FIRST, LINK, Row, answer, answer_each};

// A link makes no fifth call of the files.
const MODES: [Row<'static>; 10] = [
    (0, LINK, 0, 0, b"", 2),
    (5, LINK, 0, 0, b"", 2),
    (0, "--no-odr -o bundle a.out", 0, 0, b"", 2),
    (0, "--keep-going -o bundle a.out", 0, 0, b"", 2),
    (0, "--statistics -o bundle a.out", 0, 0, COUNTS, 2),
    (0, "--dump-map -o bundle a.out", 0, 0, MAP, 0),
    (0, "--generate 2 -o bundle a.out", 0, 0, GENERATED, 0),
    (0, "-o bundle none", 2, 0, b"dsymlink: missing: none\n", 0),
    (0, "--dump-map -o bundle m.o", 4, 0, NO_PROGRAM, 0),
    (0, "-o bundle m.o", 4, 0, NO_PROGRAM, 0),
];

const COUNTS: &[u8] = b"objects 1\nentries 2\nlive 2\npooled 0\nnames 0\nnodes 2\nbytes 4258\n";

const MAP: &[u8] =
    b"uuid 00112233-4455-6677-8899-aabbccddeeff\nobject 1 m.o\n  function 0x0000000100003f50 0x000000000000002a _main\n";

/// What is counted of the generated program of two objects. Each has 1,803 entries, of which 1,353 are live, and of these
/// 1,051 are merged: a namespace, 75 structures with 12 entries below each, and the pointers to them. The namespace alone is
/// in both.
const GENERATED: &[u8] =
    b"objects 2\nentries 3606\nlive 2706\npooled 2102\nnames 2101\nnodes 2706\nbytes 38857\n";

const NO_PROGRAM: &[u8] = b"dsymlink: faulty: m.o: BadFileType in header at 12\n";

/// Lines of words that are none of the command's.
const NO_COMMANDS: [Row<'static>; 9] = [
    (0, "", 1, 0, USAGE, 0),
    (0, "-o bundle", 1, 0, USAGE, 0),
    (0, "a.out b.out", 1, 0, USAGE, 0),
    (0, "-o bundle -j 0 a.out", 1, 0, USAGE, 0),
    (0, "-o bundle -j 65 a.out", 1, 0, USAGE, 0),
    (0, "-o bundle dir/", 1, 0, USAGE, 0),
    (0, "-o bundle --generate 1001 a.out", 1, 0, USAGE, 0),
    (0, "-o bundle --dump-map --generate 1 a.out", 1, 0, USAGE, 0),
    (0, "-o bundle --what a.out", 1, 0, USAGE, 0),
];

const USAGE: &[u8] =
    b"dsymlink: usage: dsymlink [-o OUT] [-j N] [--no-odr] [--keep-going] [--statistics] [--dump-map] [--generate N] EXE\n";

#[test]
fn each_mode_and_each_refusal_has_its_status_its_message_and_its_files(rt: HostRuntime) {
    let alloc = rt.alloc();
    answer_each(&rt, alloc, &FIRST, &MODES);
    answer(&rt, alloc, &FIRST, "", &NO_COMMANDS);
}
