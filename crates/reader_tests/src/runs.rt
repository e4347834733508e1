//! The readers over some bytes: their contracts say what they answer unless memory runs out, and here it doesn't.

use crate::bytes::{COMPILED, CUT, FRAMES};
use crate::parts::{bare_object, sections};
use ds_base::Part;
use dwarf_types::{Addr, Ops, SharedTexts};
use expr_walk::{new_length, walk};
use frame_table::read_frames;
use line_read::read_lines;
use loc_lists::read_locations;
use range_lists::read_ranges;

#[test]
fn an_expression_is_cut_into_operations(rt: HostRuntime) {
    let mut ops = Ops::new(rt.alloc());
    walk(&CUT, Part::Info, 0x100, 4, &mut ops).expect(&rt, "operations");
    let length = new_length(&ops.as_ref());
    drop(ops);
    assert!(rt; length == 32);
}

#[test]
fn a_line_table_has_its_sequences(rt: HostRuntime) {
    let alloc = rt.alloc();
    let object = bare_object(alloc);
    let texts = SharedTexts::of(alloc, b"").expect(&rt, "memory");
    let lines = read_lines(
        alloc,
        &sections(&COMPILED),
        &texts,
        &object.relocs,
        &object.image,
        0,
        4,
    );
    drop(texts);
    drop(object);
    let lines = lines.expect(&rt, "a table");
    let count = lines.sequences.len();
    drop(lines);
    assert!(rt; count == 2);
}

#[test]
fn a_section_has_its_frames(rt: HostRuntime) {
    let alloc = rt.alloc();
    let object = bare_object(alloc);
    let frames = read_frames(alloc, &sections(&FRAMES), &object.relocs, &object.image);
    drop(object);
    let frames = frames.expect(&rt, "frames");
    let count = frames.len();
    drop(frames);
    assert!(rt; count == 3);
}

#[test]
fn a_range_list_gives_its_spans(rt: HostRuntime) {
    let alloc = rt.alloc();
    let object = bare_object(alloc);
    let spans = read_ranges(
        alloc,
        &sections(b"\x07\x05\0\0\0\0\0\0\0\x02\0"),
        &object.relocs,
        &object.image,
        0,
        5,
        &Addr::Fixed(0),
        &object.relocs,
        0,
    );
    drop(object);
    let spans = spans.expect(&rt, "a list");
    let count = spans.len();
    drop(spans);
    assert!(rt; count == 1);
}

#[test]
fn a_location_list_gives_its_items(rt: HostRuntime) {
    let alloc = rt.alloc();
    let object = bare_object(alloc);
    let items = read_locations(
        alloc,
        &sections(b"\x05\x01\x50\0"),
        &object.relocs,
        &object.image,
        0,
        5,
        &Addr::Fixed(0),
        &object.relocs,
        0,
    );
    drop(object);
    let items = items.expect(&rt, "a list");
    let count = items.len();
    drop(items);
    assert!(rt; count == 1);
}
