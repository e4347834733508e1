//! Long units.

use ds_base::List;
use ds_base::dwarf::{DW_AT_const_value, DW_FORM_data4, DW_TAG_compile_unit, DW_TAG_variable};
use dwarf_types::{Node, OutAttr, OutUnit, OutValue};
use std::alloc::Global;
use std::process::Abort;

/// An entry of a unit that says a number.
fn constant(rt: &impl Abort, alloc: Global, bits: u64) -> Node {
    let mut attrs = List::new(alloc);
    let value = OutAttr {
        name: DW_AT_const_value,
        value: OutValue::Number {
            form: DW_FORM_data4,
            bits,
        },
    };
    attrs.push(value).expect(rt, "memory");
    Node {
        parent: Some(0),
        tag: DW_TAG_variable,
        attrs,
    }
}

/// A root and so many constants below it, each of which is its number among them.
fn nodes(rt: &impl Abort, alloc: Global, count: u32) -> List<Node> {
    let mut nodes = List::new(alloc);
    let root = Node {
        parent: None,
        tag: DW_TAG_compile_unit,
        attrs: List::new(alloc),
    };
    nodes.push(root).expect(rt, "memory");
    for k in 0..count {
        nodes
            .push(constant(rt, alloc, u64::from(k)))
            .expect(rt, "memory");
    }
    nodes
}

/// A unit of 20,000 constants.
pub(crate) fn constants(rt: &impl Abort, alloc: Global) -> OutUnit {
    OutUnit {
        version: 4,
        nodes: nodes(rt, alloc, 20_000),
        lines: None,
        ranges: List::new(alloc),
    }
}
