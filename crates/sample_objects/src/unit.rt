//! The unit of an object of the generated program. Objects are numbered from 1, what a unit has from 0.

ghost use Rattle.std.specs.Prelude.{◌≡◌, ◌<◌, ◌≤◌, ◌++◌, ◌∷◌, [], ◌+◌, ◌*◌, OnOk, IfOk, map};
ghost use Rattle.std.specs.List.{flat_map, range_with_len};
ghost use Rattle.sample_objects.specs.GeneratedUnit;
ghost use Rattle.sample_objects.specs.GeneratedUnit.{all_numbers, int_type, namespace, structure_tree, unit_nodes, unit_root};

use crate::attributes::{add_constant, add_node, add_type, add_value, named};
use crate::functions::add_function_tree;
use crate::structures::add_structure_tree;
use crate::texts::{GEN, INT, UNIT_ENDING, append_decimal};
use ds_base::dwarf::{
    DW_AT_byte_size, DW_AT_encoding, DW_AT_language, DW_FORM_data2, DW_LANG_C_plus_plus_14,
    DW_TAG_base_type, DW_TAG_compile_unit, DW_TAG_namespace, DW_TAG_pointer_type,
};
use ds_base::{Bytes, List, NoMemory};
use dwarf_types::{Node, OutUnit, OutValue};
use std::alloc::Global;

/// `DW_ATE_signed` (DWARF 4, section 7.8).
pub const DW_ATE_signed: u32 = 0x05;

/// How many structures a unit has, and as many pointers and functions.
pub const STRUCTURES: u32 = 100;

/// How many members a structure has.
pub const MEMBERS: u32 = 8;

/// Sizes in bytes.
pub const INT_SIZE: u32 = 4;

pub const STRUCTURE_SIZE: u32 = 32;

pub const FUNCTION_SIZE: u32 = 16;

/// The unit of an object: a base type, a namespace of structures, a pointer to each, and functions.
pub(crate) fn unit_of(alloc: Global, i: u32) -> Result<OutUnit, NoMemory>
    requires { i ≤ 1000 }
    ensures { IfOk result (λ unit. unit ≡ GeneratedUnit.unit_of i) }
{
    let nodes = nodes_of(alloc, i)?;
    let ranges = List::new(alloc);
    Ok(OutUnit {
        version: 4,
        nodes,
        lines: None,
        ranges,
    })
}

/// The entries of the unit, in preorder.
fn nodes_of(alloc: Global, i: u32) -> Result<List<Node>, NoMemory>
    requires { i ≤ 1000 }
    ensures { IfOk result (λ nodes. nodes ≡ unit_nodes i) }
{
    let mut nodes = List::new(alloc);
    add_root(alloc, &mut nodes, i)?;
    add_int(alloc, &mut nodes)?;
    add_namespace(alloc, &mut nodes)?;
    add_structures(alloc, &mut nodes, i)?;
    add_pointers(alloc, &mut nodes)?;
    add_functions(alloc, &mut nodes, i)?;
    Ok(nodes)
}

fn add_root(alloc: Global, nodes: &mut List<Node>, i: u32) -> Result<(), NoMemory>
    ensures { OnOk result (nodes.new ≡ nodes.old ++ unit_root i ∷ []) }
{
    let mut name = Bytes::new(alloc);
    append_decimal(alloc, &mut name, i)?;
    name.extend(&UNIT_ENDING)?;
    let mut attrs = named(alloc, name)?;
    let language = OutValue::Number {
        form: DW_FORM_data2,
        bits: u64::from(DW_LANG_C_plus_plus_14),
    };
    add_value(&mut attrs, DW_AT_language, language)?;
    nodes.push(Node {
        parent: None,
        tag: DW_TAG_compile_unit,
        attrs,
    })?;
    Ok(())
}

fn add_int(alloc: Global, nodes: &mut List<Node>) -> Result<(), NoMemory>
    ensures { OnOk result (nodes.new ≡ nodes.old ++ int_type ∷ []) }
{
    let mut attrs = named(alloc, Bytes::from_slice(alloc, &INT)?)?;
    add_constant(&mut attrs, DW_AT_byte_size, INT_SIZE)?;
    add_constant(&mut attrs, DW_AT_encoding, DW_ATE_signed)?;
    add_node(nodes, 0, DW_TAG_base_type, attrs)
}

fn add_namespace(alloc: Global, nodes: &mut List<Node>) -> Result<(), NoMemory>
    ensures { OnOk result (nodes.new ≡ nodes.old ++ namespace ∷ []) }
{
    let attrs = named(alloc, Bytes::from_slice(alloc, &GEN)?)?;
    add_node(nodes, 0, DW_TAG_namespace, attrs)
}

fn add_structures(alloc: Global, nodes: &mut List<Node>, i: u32) -> Result<(), NoMemory>
    requires { i ≤ 1000 }
    ensures { OnOk result (nodes.new ≡ nodes.old ++ flat_map (structure_tree i) all_numbers) }
{
    for j in 0..STRUCTURES {
        add_structure_tree(alloc, nodes, i, j)?;
    }
    Ok(())
}

fn add_pointers(alloc: Global, nodes: &mut List<Node>) -> Result<(), NoMemory>
    ensures { OnOk result (nodes.new ≡ nodes.old ++ map GeneratedUnit.pointer all_numbers) }
{
    for j in 0..STRUCTURES {
        add_pointer(alloc, nodes, j)?;
    }
    Ok(())
}

fn add_pointer(alloc: Global, nodes: &mut List<Node>, j: u32) -> Result<(), NoMemory>
    requires { j < 100 }
    ensures { OnOk result (nodes.new ≡ nodes.old ++ GeneratedUnit.pointer j ∷ []) }
{
    let mut attrs = List::new(alloc);
    add_type(&mut attrs, structure_node(j))?;
    add_node(nodes, 0, DW_TAG_pointer_type, attrs)
}

fn add_functions(alloc: Global, nodes: &mut List<Node>, i: u32) -> Result<(), NoMemory>
    ensures { OnOk result (nodes.new ≡ nodes.old ++ flat_map (GeneratedUnit.function_tree i) all_numbers) }
{
    for j in 0..STRUCTURES {
        add_function_tree(alloc, nodes, i, j)?;
    }
    Ok(())
}

/// The number of the node of structure `j`.
pub(crate) fn structure_node(j: u32) -> u32
    requires { j ≤ 100 }
    ensures { result ≡ GeneratedUnit.structure_node j }
{
    3 + 13 * j
}

/// The number of the node of the pointer to structure `j`.
pub(crate) fn pointer_node(j: u32) -> u32
    requires { j ≤ 100 }
    ensures { result ≡ GeneratedUnit.pointer_node j }
{
    structure_node(STRUCTURES) + j
}

/// The number of the node of function `j`.
pub(crate) fn function_node(j: u32) -> u32
    requires { j ≤ 100 }
    ensures { result ≡ GeneratedUnit.function_node j }
{
    pointer_node(STRUCTURES) + 4 * j
}
