//! Objects of an assembler, and what of them a program has.
//!
//! Their units and entries, as llvm-dwarfdump prints them, stand in `proofs/WorkedUnits.antt`.

ghost use Rattle.std.specs.Prelude.{◌<◌, length};

use crate::parts::same;
use ds_base::{Bytes, List};
use dwarf_types::{Analysis, copy};
use object_read::read_object;
use object_view::{analyse, analyse_read};
use stab_map::{MapEntry, MapObject, copy_object, same_object};
use std::alloc::Global;
use std::process::Abort;

const CPU_TYPE_X86_64: u32 = 0x0100_0007;

/// What llvm-mc 14 writes for x86_64-apple-macos10.12 of two units: the first has the language C99, a base type, and a
/// function `_f` of 2 bytes with a variable in it, whose types are the base type by DW_FORM_ref4 and DW_FORM_ref_addr;
/// the second has a flag as its language. `__debug_abbrev` begins at 0x1d3, and `__debug_info` at 0x1fd.
#[rattlefmt::skip]
const OBJECT: &[u8; 648] = b"\
    \xcf\xfa\xed\xfe\x07\0\0\x01\x03\0\0\0\x01\0\0\0\
    \x04\0\0\0\xb0\x01\0\0\0\0\0\0\0\0\0\0\
    \x19\0\0\0\x38\x01\0\0\0\0\0\0\0\0\0\0\
    \0\0\0\0\0\0\0\0\0\0\0\0\0\0\0\0\
    \x73\0\0\0\0\0\0\0\xd0\x01\0\0\0\0\0\0\
    \x73\0\0\0\0\0\0\0\x07\0\0\0\x07\0\0\0\
    \x03\0\0\0\0\0\0\0\x5f\x5f\x74\x65\x78\x74\0\0\
    \0\0\0\0\0\0\0\0\x5f\x5f\x54\x45\x58\x54\0\0\
    \0\0\0\0\0\0\0\0\0\0\0\0\0\0\0\0\
    \x03\0\0\0\0\0\0\0\xd0\x01\0\0\0\0\0\0\
    \0\0\0\0\0\0\0\0\0\0\0\x80\0\0\0\0\
    \0\0\0\0\0\0\0\0\x5f\x5f\x64\x65\x62\x75\x67\x5f\
    \x61\x62\x62\x72\x65\x76\0\0\x5f\x5f\x44\x57\x41\x52\x46\0\
    \0\0\0\0\0\0\0\0\x03\0\0\0\0\0\0\0\
    \x2a\0\0\0\0\0\0\0\xd3\x01\0\0\0\0\0\0\
    \0\0\0\0\0\0\0\0\0\0\0\x02\0\0\0\0\
    \0\0\0\0\0\0\0\0\x5f\x5f\x64\x65\x62\x75\x67\x5f\
    \x69\x6e\x66\x6f\0\0\0\0\x5f\x5f\x44\x57\x41\x52\x46\0\
    \0\0\0\0\0\0\0\0\x2d\0\0\0\0\0\0\0\
    \x46\0\0\0\0\0\0\0\xfd\x01\0\0\0\0\0\0\
    \x48\x02\0\0\x03\0\0\0\0\0\0\x02\0\0\0\0\
    \0\0\0\0\0\0\0\0\x24\0\0\0\x10\0\0\0\
    \0\x0c\x0a\0\0\0\0\0\x02\0\0\0\x18\0\0\0\
    \x60\x02\0\0\x02\0\0\0\x80\x02\0\0\x08\0\0\0\
    \x0b\0\0\0\x50\0\0\0\0\0\0\0\0\0\0\0\
    \0\0\0\0\x02\0\0\0\x02\0\0\0\0\0\0\0\
    \0\0\0\0\0\0\0\0\0\0\0\0\0\0\0\0\
    \0\0\0\0\0\0\0\0\0\0\0\0\0\0\0\0\
    \0\0\0\0\0\0\0\0\0\0\0\0\0\0\0\0\
    \xc3\xc3\xc3\x01\x11\x01\x13\x05\x11\x01\0\0\x02\x24\0\0\
    \0\x03\x2e\x01\x11\x01\x12\x06\x49\x13\0\0\x04\x34\0\x49\
    \x10\x02\x18\0\0\x05\x11\0\x13\x0c\0\0\0\x35\0\0\
    \0\x04\0\0\0\0\0\x08\x01\x0c\0\0\0\0\0\0\
    \0\0\0\x02\x03\0\0\0\0\0\0\0\0\x02\0\0\
    \0\x16\0\0\0\x04\x16\0\0\0\x09\x03\x02\0\0\0\
    \0\0\0\0\0\0\x09\0\0\0\x04\0\0\0\0\0\
    \x08\x05\x01\0\0\0\0\0\x2f\0\0\0\x01\0\0\x06\
    \x18\0\0\0\x01\0\0\x06\x0e\0\0\0\x01\0\0\x06\
    \x04\0\0\0\x0f\x01\0\0\0\0\0\0\0\0\0\0\
    \x01\0\0\0\x0f\x01\0\0\x02\0\0\0\0\0\0\0\
    \0\x5f\x67\0\x5f\x66\0\0";

/// What llvm-mc 14 writes for x86_64-apple-macos10.12 of a unit of version 5: its name `m.c` has the form DW_FORM_strx1,
/// and a function `_f` of 2 bytes begins at the first address of `__debug_addr`, by DW_FORM_addrx. `__debug_abbrev` begins
/// at 0x2c2, and behind it stand `__debug_info`, `__debug_str_offs`, `__debug_addr` and `__debug_str`.
#[rattlefmt::skip]
const OBJECT_5: &[u8; 824] = b"\
    \xcf\xfa\xed\xfe\x07\0\0\x01\x03\0\0\0\x01\0\0\0\
    \x04\0\0\0\xa0\x02\0\0\0\0\0\0\0\0\0\0\
    \x19\0\0\0\x28\x02\0\0\0\0\0\0\0\0\0\0\
    \0\0\0\0\0\0\0\0\0\0\0\0\0\0\0\0\
    \x54\0\0\0\0\0\0\0\xc0\x02\0\0\0\0\0\0\
    \x54\0\0\0\0\0\0\0\x07\0\0\0\x07\0\0\0\
    \x06\0\0\0\0\0\0\0\x5f\x5f\x74\x65\x78\x74\0\0\
    \0\0\0\0\0\0\0\0\x5f\x5f\x54\x45\x58\x54\0\0\
    \0\0\0\0\0\0\0\0\0\0\0\0\0\0\0\0\
    \x02\0\0\0\0\0\0\0\xc0\x02\0\0\0\0\0\0\
    \0\0\0\0\0\0\0\0\0\x04\0\x80\0\0\0\0\
    \0\0\0\0\0\0\0\0\x5f\x5f\x64\x65\x62\x75\x67\x5f\
    \x61\x62\x62\x72\x65\x76\0\0\x5f\x5f\x44\x57\x41\x52\x46\0\
    \0\0\0\0\0\0\0\0\x02\0\0\0\0\0\0\0\
    \x15\0\0\0\0\0\0\0\xc2\x02\0\0\0\0\0\0\
    \0\0\0\0\0\0\0\0\0\0\0\x02\0\0\0\0\
    \0\0\0\0\0\0\0\0\x5f\x5f\x64\x65\x62\x75\x67\x5f\
    \x69\x6e\x66\x6f\0\0\0\0\x5f\x5f\x44\x57\x41\x52\x46\0\
    \0\0\0\0\0\0\0\0\x17\0\0\0\0\0\0\0\
    \x1d\0\0\0\0\0\0\0\xd7\x02\0\0\0\0\0\0\
    \0\0\0\0\0\0\0\0\0\0\0\x02\0\0\0\0\
    \0\0\0\0\0\0\0\0\x5f\x5f\x64\x65\x62\x75\x67\x5f\
    \x73\x74\x72\x5f\x6f\x66\x66\x73\x5f\x5f\x44\x57\x41\x52\x46\0\
    \0\0\0\0\0\0\0\0\x34\0\0\0\0\0\0\0\
    \x0c\0\0\0\0\0\0\0\xf4\x02\0\0\0\0\0\0\
    \0\0\0\0\0\0\0\0\0\0\0\x02\0\0\0\0\
    \0\0\0\0\0\0\0\0\x5f\x5f\x64\x65\x62\x75\x67\x5f\
    \x61\x64\x64\x72\0\0\0\0\x5f\x5f\x44\x57\x41\x52\x46\0\
    \0\0\0\0\0\0\0\0\x40\0\0\0\0\0\0\0\
    \x10\0\0\0\0\0\0\0\0\x03\0\0\0\0\0\0\
    \x18\x03\0\0\x01\0\0\0\0\0\0\x02\0\0\0\0\
    \0\0\0\0\0\0\0\0\x5f\x5f\x64\x65\x62\x75\x67\x5f\
    \x73\x74\x72\0\0\0\0\0\x5f\x5f\x44\x57\x41\x52\x46\0\
    \0\0\0\0\0\0\0\0\x50\0\0\0\0\0\0\0\
    \x04\0\0\0\0\0\0\0\x10\x03\0\0\0\0\0\0\
    \0\0\0\0\0\0\0\0\0\0\0\x02\0\0\0\0\
    \0\0\0\0\0\0\0\0\x24\0\0\0\x10\0\0\0\
    \0\x0c\x0a\0\0\0\0\0\x02\0\0\0\x18\0\0\0\
    \x20\x03\0\0\x01\0\0\0\x30\x03\0\0\x08\0\0\0\
    \x0b\0\0\0\x50\0\0\0\0\0\0\0\0\0\0\0\
    \0\0\0\0\x01\0\0\0\x01\0\0\0\0\0\0\0\
    \0\0\0\0\0\0\0\0\0\0\0\0\0\0\0\0\
    \0\0\0\0\0\0\0\0\0\0\0\0\0\0\0\0\
    \0\0\0\0\0\0\0\0\0\0\0\0\0\0\0\0\
    \x90\x90\x01\x11\x01\x72\x17\x73\x17\x03\x25\0\0\x02\x2e\0\
    \x11\x1b\x12\x06\0\0\0\x19\0\0\0\x05\0\x01\x08\0\
    \0\0\0\x01\x08\0\0\0\x08\0\0\0\0\x02\0\x02\
    \0\0\0\0\x08\0\0\0\x05\0\0\0\0\0\0\0\
    \x0c\0\0\0\x05\0\x08\0\0\0\0\0\0\0\0\0\
    \x6d\x2e\x63\0\0\0\0\0\x08\0\0\0\x01\0\0\x06\
    \x01\0\0\0\x0f\x01\0\0\0\0\0\0\0\0\0\0\
    \0\x5f\x66\0\0\0\0\0";

/// The debug map has `_f` at 0x100001000, with 2 bytes.
fn map_object(rt: &impl Abort, alloc: Global) -> MapObject {
    let mut entries = List::new(alloc);
    let entry = MapEntry {
        name: Bytes::from_slice(alloc, b"_f").expect(rt, "memory"),
        linked: 0x1_0000_1000,
        size: Some(2),
    };
    entries.push(entry).expect(rt, "memory");
    MapObject {
        path: Bytes::new(alloc),
        file: Bytes::new(alloc),
        member: None,
        entries,
    }
}

fn analysed(rt: &impl Abort, alloc: Global, bytes: &[u8]) -> Analysis
    requires { length bytes.now < 1000 }
{
    let object = map_object(rt, alloc);
    let analysis = analyse(alloc, bytes, &object, CPU_TYPE_X86_64);
    drop(object);
    analysis.expect(rt, "an analysis")
}

/// An analysis has so many units and entries, and its only piece of code is `_f`, which is the entry of this number.
fn assert_code(rt: &impl Abort, analysis: &Analysis, units: usize, entries: usize, entry: u32) {
    let counts = (
        analysis.units.len(),
        analysis.entries.len(),
        analysis.code.len(),
    );
    same(rt, "units, entries, code", counts, (units, entries, 1));
    let code = analysis.code.get(0).expect(rt, "code");
    let seen = (code.entry, code.span.low, code.span.high);
    same(rt, "code", seen, (entry, 0x1_0000_1000, 0x1_0000_1002));
}

/// An object is read so, and a copy of its analysis says the same.
fn is_read(rt: &impl Abort, alloc: Global, bytes: &[u8], units: usize, entries: usize, entry: u32)
    requires { length bytes.now < 1000 }
{
    let analysis = analysed(rt, alloc, bytes);
    assert_code(rt, &analysis, units, entries, entry);
    let twin = copied(rt, alloc, &analysis);
    drop(analysis);
    assert_code(rt, &twin, units, entries, entry);
    drop(twin);
}

fn copied(rt: &impl Abort, alloc: Global, analysis: &Analysis) -> Analysis {
    copy(alloc, analysis).expect(rt, "memory")
}

#[test]
fn a_function_of_an_object_is_where_the_program_has_it(rt: HostRuntime) {
    let alloc = rt.alloc();
    is_read(&rt, alloc, OBJECT, 2, 5, 2);
    is_read(&rt, alloc, OBJECT_5, 1, 2, 1);
}

/// The analysis of an object that is read first, and then analysed by its part of a map.
fn read_and_analysed(rt: &impl Abort, alloc: Global, bytes: &[u8]) -> Analysis
    requires { length bytes.now < 1000 }
{
    let object = map_object(rt, alloc);
    let read = read_object(alloc, bytes, CPU_TYPE_X86_64).expect(rt, "an object");
    let analysis = analyse_read(alloc, bytes, read, &object);
    drop(object);
    analysis.expect(rt, "an analysis")
}

#[test]
fn an_object_is_analysed_of_what_was_read(rt: HostRuntime) {
    let analysis = read_and_analysed(&rt, rt.alloc(), OBJECT_5);
    assert_code(&rt, &analysis, 1, 2, 1);
    drop(analysis);
}

#[test]
fn a_copy_of_an_object_of_the_map_is_the_same(rt: HostRuntime) {
    let object = map_object(&rt, rt.alloc());
    let twin = copy_object(rt.alloc(), &object).expect(&rt, "memory");
    let is_same = same_object(&object, &twin);
    drop(object);
    drop(twin);
    assert!(rt; is_same);
}
