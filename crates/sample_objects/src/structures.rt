//! The structures of a generated unit, each with its members and its subprograms.

ghost use Rattle.std.specs.Prelude.{◌≡◌, ◌<◌, ◌≤◌, ◌++◌, ◌∷◌, [], ◌+◌, OnOk, IfOk, map};
ghost use Rattle.std.specs.Fmt.{decimal};
ghost use Rattle.std.specs.List.{range_with_len};
ghost use Rattle.sample_objects.specs.GeneratedUnit;
ghost use Rattle.sample_objects.specs.GeneratedUnit.{f_declaration, g_declaration, member, structure, structure_tree, this_parameter};

use crate::attributes::{add_constant, add_flag, add_node, add_type, add_value, named};
use crate::texts::{F, G, G_LINKAGE, MEMBER, STRUCTURE, numbered};
use crate::unit::{INT_SIZE, MEMBERS, STRUCTURE_SIZE, pointer_node, structure_node};
use ds_base::dwarf::{
    DW_AT_artificial, DW_AT_byte_size, DW_AT_data_member_location, DW_AT_declaration,
    DW_AT_linkage_name, DW_TAG_formal_parameter, DW_TAG_member, DW_TAG_structure_type,
    DW_TAG_subprogram,
};
use ds_base::{Bytes, List, NoMemory};
use dwarf_types::{Node, OutValue};
use std::alloc::Global;

/// The numbers of the base type and of the namespace among the nodes.
const INT_NODE: u32 = 1;

const NAMESPACE_NODE: u32 = 2;

/// Puts structure `j` of object `i` last, with what is in it.
pub(crate) fn add_structure_tree(
    alloc: Global,
    nodes: &mut List<Node>,
    i: u32,
    j: u32,
) -> Result<(), NoMemory>
    requires object { i ≤ 1000 }
    requires number { j < 100 }
    ensures { OnOk result (nodes.new ≡ nodes.old ++ structure_tree i j) }
{
    add_structure(alloc, nodes, i, j)?;
    add_members(alloc, nodes, j)?;
    add_f(alloc, nodes, j)?;
    add_parameter(alloc, nodes, structure_node(j) + 9, j)?;
    add_g(alloc, nodes, i, j)?;
    add_parameter(alloc, nodes, structure_node(j) + 11, j)?;
    Ok(())
}

fn add_structure(alloc: Global, nodes: &mut List<Node>, i: u32, j: u32) -> Result<(), NoMemory>
    requires object { i ≤ 1000 }
    requires number { j < 100 }
    ensures { OnOk result (nodes.new ≡ nodes.old ++ structure i j ∷ []) }
{
    let mut attrs = named(alloc, numbered(alloc, &STRUCTURE, type_number(i, j))?)?;
    add_constant(&mut attrs, DW_AT_byte_size, STRUCTURE_SIZE)?;
    add_node(nodes, NAMESPACE_NODE, DW_TAG_structure_type, attrs)
}

/// The number by which structure `j` of object `i` is named: objects share names.
fn type_number(i: u32, j: u32) -> u32
    requires object { i ≤ 1000 }
    requires number { j < 100 }
    ensures { result ≡ GeneratedUnit.type_number i j }
{
    (37 * i + 11 * j) % 1000
}

fn add_members(alloc: Global, nodes: &mut List<Node>, j: u32) -> Result<(), NoMemory>
    requires { j < 100 }
    ensures { OnOk result (nodes.new ≡ nodes.old ++ map (member j) (range_with_len 0 8)) }
{
    for k in 0..MEMBERS {
        add_member(alloc, nodes, j, k)?;
    }
    Ok(())
}

fn add_member(alloc: Global, nodes: &mut List<Node>, j: u32, k: u32) -> Result<(), NoMemory>
    requires structure { j < 100 }
    requires member { k < 8 }
    ensures { OnOk result (nodes.new ≡ nodes.old ++ member j k ∷ []) }
{
    let mut attrs = named(alloc, numbered(alloc, &MEMBER, k)?)?;
    add_type(&mut attrs, INT_NODE)?;
    add_constant(&mut attrs, DW_AT_data_member_location, INT_SIZE * k)?;
    add_node(nodes, structure_node(j), DW_TAG_member, attrs)
}

/// Puts the first subprogram of structure `j` last.
fn add_f(alloc: Global, nodes: &mut List<Node>, j: u32) -> Result<(), NoMemory>
    requires { j < 100 }
    ensures { OnOk result (nodes.new ≡ nodes.old ++ f_declaration j ∷ []) }
{
    let mut attrs = named(alloc, Bytes::from_slice(alloc, &F)?)?;
    add_flag(&mut attrs, DW_AT_declaration)?;
    add_node(nodes, structure_node(j), DW_TAG_subprogram, attrs)
}

/// Puts the second subprogram of structure `j` last, which has a linkage name.
fn add_g(alloc: Global, nodes: &mut List<Node>, i: u32, j: u32) -> Result<(), NoMemory>
    requires object { i ≤ 1000 }
    requires number { j < 100 }
    ensures { OnOk result (nodes.new ≡ nodes.old ++ g_declaration i j ∷ []) }
{
    let linkage_name = numbered(alloc, &G_LINKAGE, type_number(i, j))?;
    let mut attrs = named(alloc, Bytes::from_slice(alloc, &G)?)?;
    add_value(&mut attrs, DW_AT_linkage_name, OutValue::Text(linkage_name))?;
    add_flag(&mut attrs, DW_AT_declaration)?;
    add_node(nodes, structure_node(j), DW_TAG_subprogram, attrs)
}

/// Puts the parameter of a subprogram of structure `j` last: the object on which it is called.
fn add_parameter(alloc: Global, nodes: &mut List<Node>, parent: u32, j: u32) -> Result<(), NoMemory>
    requires { j < 100 }
    ensures { OnOk result (nodes.new ≡ nodes.old ++ this_parameter parent j ∷ []) }
{
    let mut attrs = List::new(alloc);
    add_type(&mut attrs, pointer_node(j))?;
    add_flag(&mut attrs, DW_AT_artificial)?;
    add_node(nodes, parent, DW_TAG_formal_parameter, attrs)
}
