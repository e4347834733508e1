//! The readers over the files: their contracts say what they answer unless memory runs out, and here it doesn't.

ghost use Rattle.macho_read.specs.Sound.{IsSound};

use crate::archive::ARCHIVE;
use crate::object::OBJECT;
use crate::program::PROGRAM;
use addr_map::{build, pieces};
use ar_read::read_members;
use macho_read::{Image, read_image};
use reloc_table::{is_part, relocs};
use stab_map::debug_map;
use std::alloc::Global;
use std::process::Abort;

#[test]
fn an_archive_has_a_table_of_its_members(rt: HostRuntime) {
    let members = read_members(rt.alloc(), &ARCHIVE).expect(&rt, "a table");
    let size = members.find(b"a.o").expect(&rt, "a member").len();
    drop(members);
    assert!(rt; size == 3);
}

/// The image of a file.
fn image_in(rt: &impl Abort, alloc: Global, file: &[u8]) -> Image
    ensures { IsSound result }
{
    read_image(alloc, file).expect(rt, "an image")
}

/// How many relocations the object's `__debug_info` has.
fn count_relocs(rt: &impl Abort, alloc: Global, image: &Image) -> usize
    requires { IsSound image.now }
{
    let section = image.sections.get(2).expect(rt, "a section");
    assert!(rt; is_part(section));
    let relocs = relocs(alloc, &OBJECT, image, section).expect(rt, "relocations");
    relocs.list.len()
}

#[test]
fn an_object_has_relocations(rt: HostRuntime) {
    let image = image_in(&rt, rt.alloc(), &OBJECT);
    let count = count_relocs(&rt, rt.alloc(), &image);
    drop(image);
    assert!(rt; count == 2);
}

#[test]
fn a_span_of_the_object_goes_to_the_program(rt: HostRuntime) {
    let alloc = rt.alloc();
    let program = image_in(&rt, alloc, &PROGRAM);
    let objects = debug_map(alloc, &program).expect(&rt, "a map");
    drop(program);
    let image = image_in(&rt, alloc, &OBJECT);
    let object = objects.get(0).expect(&rt, "an object");
    let map = build(alloc, object, &image).expect(&rt, "memory");
    drop(image);
    drop(objects);
    let pieces = pieces(alloc, &map, 0x18, 0x30).expect(&rt, "memory");
    drop(map);
    let count = pieces.len();
    drop(pieces);
    assert!(rt; count == 1);
}
