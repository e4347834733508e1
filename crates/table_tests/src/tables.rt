//! Tables of names, byte for byte and as they are looked up.

use accel_tables::{Entered, look_up, table_bytes};
use ds_base::{Bytes, Fault, Kind, ReadError};
use std::alloc::Global;
use std::process::Abort;

/// A string section in which names begin at 4, 9 and 12.
const STRINGS: &[u8] = b"cc\0\0main\0Ab\0BA\0";

/// The table of `main` at 4, whose entry stands at 0x1e.
#[rattlefmt::skip]
const ONE_NAME: [u8; 60] = [
    0x48, 0x53, 0x41, 0x48,  1, 0,  0, 0,  1, 0, 0, 0,  1, 0, 0, 0,  12, 0, 0, 0,
    0, 0, 0, 0,  1, 0, 0, 0,  1, 0,  6, 0,
    0, 0, 0, 0,
    0x6a, 0x7f, 0x9a, 0x7c,
    0x2c, 0, 0, 0,
    4, 0, 0, 0,  1, 0, 0, 0,  0x1e, 0, 0, 0,  0, 0, 0, 0,
];

fn one_name(rt: &impl Abort, alloc: Global) -> Bytes {
    let items = [Entered {
        name: b"main",
        text: 4,
        entry: 0x1e,
    }];
    table_bytes(alloc, &items).expect(rt, "a table")
}

/// The table of two names of one hash, one of which is given twice.
fn two_names(rt: &impl Abort, alloc: Global) -> Bytes {
    let items = [
        Entered {
            name: b"BA",
            text: 12,
            entry: 0x50,
        },
        Entered {
            name: b"Ab",
            text: 9,
            entry: 0x40,
        },
        Entered {
            name: b"BA",
            text: 12,
            entry: 0x50,
        },
    ];
    table_bytes(alloc, &items).expect(rt, "a table")
}

/// These entries are found under a name.
fn finds(rt: &impl Abort, alloc: Global, table: &[u8], name: &[u8], entries: &[u32]) {
    let found = look_up(alloc, table, STRINGS, name).expect(rt, "entries");
    let same = found.as_slice() == entries;
    drop(found);
    assert!(rt; same);
}

/// Why a look-up is refused, if it is.
fn fault_of(alloc: Global, table: &[u8], name: &[u8]) -> Option<Fault> {
    match look_up(alloc, table, STRINGS, name) {
        Err(ReadError::Faulty(fault)) => Some(fault),
        Err(ReadError::NoMemory) => None,
        Ok(_) => None,
    }
}

#[test]
fn a_name_stands_in_a_table(rt: HostRuntime) {
    let table = one_name(&rt, rt.alloc());
    let same = table.as_slice() == ONE_NAME.as_slice();
    drop(table);
    assert!(rt; same);
}

#[test]
fn names_of_one_hash_are_told_apart(rt: HostRuntime) {
    let table = two_names(&rt, rt.alloc());
    finds(&rt, rt.alloc(), table.as_slice(), b"Ab", &[0x40]);
    finds(&rt, rt.alloc(), table.as_slice(), b"BA", &[0x50]);
    finds(&rt, rt.alloc(), table.as_slice(), b"B", &[]);
}

#[test]
fn a_cut_table_is_refused_where_it_ends(rt: HostRuntime) {
    let fault = fault_of(rt.alloc(), &ONE_NAME[..19], b"main").expect(&rt, "a fault");
    assert!(rt; fault.kind == Kind::Truncated);
    assert!(rt; fault.place == 16);
}
