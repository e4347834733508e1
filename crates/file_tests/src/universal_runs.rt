//! Universal files are made, read and cut: the contracts say what the calls answer unless memory runs out, and here it doesn't.

ghost use Rattle.std.specs.Prelude.{◌≡◌, length};

use ds_base::macho::{CPU_TYPE_ARM64, CPU_TYPE_X86_64};
use ds_base::{Bytes, List};
use std::alloc::Global;
use std::process::Abort;
use universal::{Arch, Thin, join, slice_for, slices};

/// A part with these bytes.
fn part(rt: &impl Abort, alloc: Global, cpu: u32, bytes: &[u8]) -> Thin {
    Thin {
        cpu,
        sub: 0,
        bytes: Bytes::from_slice(alloc, bytes).expect(rt, "memory"),
    }
}

/// Two parts, for x86_64 and arm64.
fn two_parts(rt: &impl Abort, alloc: Global) -> List<Thin>
    ensures { length result ≡ 2 }
{
    let mut parts = List::new(alloc);
    parts
        .push(part(rt, alloc, CPU_TYPE_X86_64, b"one"))
        .expect(rt, "memory");
    parts
        .push(part(rt, alloc, CPU_TYPE_ARM64, b"four"))
        .expect(rt, "memory");
    parts
}

/// The file with these parts.
fn file_of_two(rt: &impl Abort, alloc: Global) -> Bytes {
    let parts = two_parts(rt, alloc);
    join(alloc, parts.as_slice()).expect(rt, "a file")
}

/// How many slices a file has.
fn count_slices(rt: &impl Abort, alloc: Global, file: &[u8]) -> usize {
    let slices = slices(alloc, file).expect(rt, "slices");
    slices.expect(rt, "a universal file").len()
}

#[test]
fn joined_parts_are_slices(rt: HostRuntime) {
    let file = file_of_two(&rt, rt.alloc());
    let count = count_slices(&rt, rt.alloc(), file.as_slice());
    drop(file);
    assert!(rt; count == 2);
}

#[test]
fn a_slice_is_cut_from_the_file(rt: HostRuntime) {
    let file = file_of_two(&rt, rt.alloc());
    let arch = Arch {
        cpu: CPU_TYPE_ARM64,
        sub: 0,
    };
    let len = slice_for(rt.alloc(), arch, file.as_slice())
        .expect(&rt, "a slice")
        .len();
    drop(file);
    assert!(rt; len == 4);
}
