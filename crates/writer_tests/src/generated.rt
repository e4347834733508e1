//! The objects of the generated program, against what another program makes of the same description.

ghost use Rattle.std.specs.Prelude.{◌≤◌};

use sample_objects::generated_file;
use std::alloc::Global;
use std::process::Abort;
use std::thread::Threads;

// Each byte counts by its place.
fn checksum(bytes: &[u8]) -> u32 {
    let mut sum = 0u32;
    for b in bytes {
        sum = sum.wrapping_mul(31).wrapping_add(u32::from(*b));
    }
    sum
}

// The file of an object, by its number, has this size and this sum.
fn file_is<R: Threads + Abort + Sync>(rt: &R, alloc: Global, number: u32, len: usize, sum: u32)
    requires { number ≤ 1000 }
{
    let file = generated_file(rt, alloc, number).expect(rt, "memory for a file");
    let found = (file.len(), checksum(file.as_slice()));
    drop(file);
    assert!(rt; found == (len, sum));
}

#[test]
fn files_are_those_of_another_program(rt: HostRuntime) {
    file_is(&rt, rt.alloc(), 1, 23382, 3116305248);
    file_is(&rt, rt.alloc(), 2, 23388, 546868958);
}
