//! The names of a small graph.

ghost use Rattle.std.specs.Prelude.{◌<◌, ◌^◌, length};
ghost use Rattle.std.specs.List.{All};

use accel_tables::{Which, collect};
use ds_base::dwarf::{
    DW_AT_declaration, DW_AT_linkage_name, DW_AT_low_pc, DW_AT_name, DW_FORM_flag_present,
    DW_TAG_compile_unit, DW_TAG_structure_type, DW_TAG_subprogram,
};
use ds_base::{Bytes, List};
use dwarf_types::{Graph, Node, OutAttr, OutFrames, OutUnit, OutValue};
use std::alloc::Global;
use std::process::Abort;

fn attrs_of(rt: &impl Abort, alloc: Global, first: OutAttr, second: OutAttr) -> List<OutAttr> {
    let mut attrs = List::new(alloc);
    attrs.push(first).expect(rt, "memory");
    attrs.push(second).expect(rt, "memory");
    attrs
}

fn named(rt: &impl Abort, alloc: Global, name: u16, text: &[u8]) -> OutAttr {
    let text = Bytes::from_slice(alloc, text).expect(rt, "memory");
    OutAttr {
        name,
        value: OutValue::Text(text),
    }
}

fn root(alloc: Global) -> Node {
    Node {
        parent: None,
        tag: DW_TAG_compile_unit,
        attrs: List::new(alloc),
    }
}

/// A function `f` whose linkage name is `f` too, at an address.
fn function(rt: &impl Abort, alloc: Global) -> Node {
    let name = named(rt, alloc, DW_AT_name, b"f");
    let linkage_name = named(rt, alloc, DW_AT_linkage_name, b"f");
    let mut attrs = attrs_of(rt, alloc, name, linkage_name);
    let low_pc = OutAttr {
        name: DW_AT_low_pc,
        value: OutValue::Address(0x1000),
    };
    attrs.push(low_pc).expect(rt, "memory");
    Node {
        parent: Some(0),
        tag: DW_TAG_subprogram,
        attrs,
    }
}

/// A structure `T` that is declared alone.
fn declared(rt: &impl Abort, alloc: Global) -> Node {
    let name = named(rt, alloc, DW_AT_name, b"T");
    let declaration = OutAttr {
        name: DW_AT_declaration,
        value: OutValue::Number {
            form: DW_FORM_flag_present,
            bits: 1,
        },
    };
    Node {
        parent: Some(0),
        tag: DW_TAG_structure_type,
        attrs: attrs_of(rt, alloc, name, declaration),
    }
}

fn nodes(rt: &impl Abort, alloc: Global) -> List<Node>
    ensures { length result < 2 ^ 32 }
{
    let mut nodes = List::new(alloc);
    nodes.push(root(alloc)).expect(rt, "memory");
    nodes.push(function(rt, alloc)).expect(rt, "memory");
    nodes.push(declared(rt, alloc)).expect(rt, "memory");
    nodes
}

fn graph(rt: &impl Abort, alloc: Global) -> Graph
    ensures few { length result.units < 2 ^ 32 }
    ensures few_nodes { All (λ unit. length unit.nodes < 2 ^ 32) result.units }
{
    let unit = OutUnit {
        version: 4,
        nodes: nodes(rt, alloc),
        lines: None,
        ranges: List::new(alloc),
    };
    let mut units = List::new(alloc);
    units.push(unit).expect(rt, "memory");
    Graph {
        units,
        frames: OutFrames::new(alloc),
    }
}

/// So many names with this text and this node are collected.
fn collects(rt: &impl Abort, alloc: Global, which: Which, count: usize) {
    let graph = graph(rt, alloc);
    let pairs = collect(alloc, &graph, which).expect(rt, "memory");
    drop(graph);
    let seen = pairs.len();
    drop(pairs);
    assert!(rt; seen == count);
}

#[test]
fn a_function_is_entered_once(rt: HostRuntime) {
    collects(&rt, rt.alloc(), Which::Names, 1);
}

#[test]
fn a_declaration_is_no_type(rt: HostRuntime) {
    collects(&rt, rt.alloc(), Which::Types, 0);
}
