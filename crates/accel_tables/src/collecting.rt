//! The names of a graph with their entries.

ghost use Rattle.std.specs.Prelude.{◌≡◌, ℕ, ◌<◌, ◌^◌, ◌==◌, ◌++◌, false, length, map, slice_get, List as Listed, IfOk, OnOk};
ghost use Rattle.std.specs.List.{All, enumerate_from, flat_map, range_with_len};
ghost use Rattle.std.specs.Option.{option_copied, option_map_or, option_to_list};
ghost use Rattle.std.specs.Str.{bytes_eq};
ghost use Rattle.ds_base.specs.DwarfNumbers as dw;
ghost use Rattle.dwarf_types.specs.Entries;
ghost use Rattle.dwarf_types.specs.declared.graph.Node.{Node as ANode};
ghost use Rattle.accel_tables.specs.EnteredNames;
ghost use Rattle.accel_tables.specs.EnteredNames.{collected, entered_names, is_inside, names_of, names_of_node};

use crate::attributes::{has, has_place, is_declared, text_at};
use crate::calling::called;
use crate::which::Which;
use ds_base::dwarf::{
    DW_AT_linkage_name, DW_AT_low_pc, DW_AT_name, DW_AT_ranges, DW_TAG_base_type,
    DW_TAG_class_type, DW_TAG_enumeration_type, DW_TAG_inlined_subroutine, DW_TAG_label,
    DW_TAG_namespace, DW_TAG_structure_type, DW_TAG_subprogram, DW_TAG_typedef, DW_TAG_union_type,
    DW_TAG_unspecified_type, DW_TAG_variable,
};
use ds_base::{Bytes, List, NoMemory};
use dwarf_types::{Graph, Node, Target};
use std::alloc::Global;

/// The names that a graph enters in a table, each with its entry, in the order of units and nodes. A name whose text stands at
/// place 0 of `__debug_str` is among them, though it isn't written. Each node is looked at once, and for a name 17 entries at
/// most.
pub fn collect(
    alloc: Global,
    graph: &Graph,
    which: Which,
) -> Result<List<(Bytes, Target)>, NoMemory>
    requires few { length graph.now.units < 2 ^ 32 }
    requires few_nodes { All (λ unit. length unit.nodes < 2 ^ 32) graph.now.units }
    ensures { IfOk result (λ pairs. pairs ≡ collected graph.now which) }
{
    let mut pairs = List::new(alloc);
    for (u, unit) in graph.units.as_slice().iter().enumerate() {
        collect_unit(
            alloc,
            graph,
            which,
            u as u32,
            unit.nodes.as_slice(),
            &mut pairs,
        )?;
    }
    Ok(pairs)
}

/// Puts the names of a unit last, by its number and its nodes.
fn collect_unit(
    alloc: Global,
    graph: &Graph,
    which: Which,
    unit: u32,
    nodes: &[Node],
    pairs: &mut List<(Bytes, Target)>,
) -> Result<(), NoMemory>
    requires { length nodes.now < 2 ^ 32 }
    ensures { OnOk result (pairs.new ≡ pairs.old ++ flat_map (names_of_node graph.now which unit nodes.now) (enumerate_from 0 nodes.now)) }
{
    let row = inside_row(alloc, nodes)?;
    let inside = row.as_slice();
    for (k, node) in nodes.iter().enumerate() {
        let place = Standing {
            unit,
            node: k as u32,
            inside: inside[k],
        };
        put_node(alloc, graph, which, place, node, pairs)?;
    }
    Ok(())
}

/// Where a node stands.
#[derive(Clone, Copy)]
struct Standing {
    /// The number of its unit.
    unit: u32,
    /// Its number in the unit.
    node: u32,
    /// Whether it stands in a subprogram.
    inside: bool,
}

/// Puts the names of a node last.
fn put_node(
    alloc: Global,
    graph: &Graph,
    which: Which,
    place: Standing,
    node: &Node,
    pairs: &mut List<(Bytes, Target)>,
) -> Result<(), NoMemory>
    ensures { (nodes : Listed ANode) → place.inside ≡ is_inside nodes place.node → OnOk result (pairs.new ≡ pairs.old ++ names_of_node graph.now which place.unit nodes (place.node, node.now)) }
{
    if !is_in(which, node, place.inside) {
        return Ok(());
    }
    let target = Target {
        unit: place.unit,
        node: place.node,
    };
    put_names_of(alloc, graph, which, target, node, pairs)
}

/// Whether a node is entered.
fn is_in(which: Which, node: &Node, inside: bool) -> bool
    ensures { (nodes : Listed ANode) (k : ℕ) → inside ≡ is_inside nodes k → result ≡ EnteredNames.is_in which nodes k node.now }
{
    match which {
        Which::Names => is_in_names(node, inside),
        Which::Types => is_type_tag(node.tag) && !is_declared(node),
        Which::Namespaces => node.tag == DW_TAG_namespace,
    }
}

/// Whether a node is entered in the table of names.
fn is_in_names(node: &Node, inside: bool) -> bool
    ensures { result ≡ EnteredNames.is_in_names inside node.now }
{
    if node.tag == DW_TAG_subprogram || node.tag == DW_TAG_inlined_subroutine {
        return has(node, DW_AT_low_pc) || has(node, DW_AT_ranges);
    }
    if node.tag == DW_TAG_label {
        return has(node, DW_AT_low_pc);
    }
    node.tag == DW_TAG_variable && has_place(node) && !inside
}

/// Whether a tag is that of a type which is entered.
fn is_type_tag(tag: u16) -> bool
    ensures { result ≡ EnteredNames.is_type_tag tag }
{
    tag == DW_TAG_class_type
        || tag == DW_TAG_enumeration_type
        || tag == DW_TAG_structure_type
        || tag == DW_TAG_typedef
        || tag == DW_TAG_union_type
        || tag == DW_TAG_base_type
        || tag == DW_TAG_unspecified_type
}

/// Puts what a node is called last, with the node.
fn put_names_of(
    alloc: Global,
    graph: &Graph,
    which: Which,
    target: Target,
    node: &Node,
    pairs: &mut List<(Bytes, Target)>,
) -> Result<(), NoMemory>
    ensures { OnOk result (pairs.new ≡ pairs.old ++ map (λ name. (name, target)) (entered_names (names_of graph.now which target node.now))) }
{
    match which {
        Which::Names => {
            let name = called(alloc, graph, DW_AT_name, target)?;
            let linkage_name = called(alloc, graph, DW_AT_linkage_name, target)?;
            put_names(alloc, name, linkage_name, target, pairs)
        }
        Which::Types => put_name(alloc, text_at(node, DW_AT_name), target, pairs),
        Which::Namespaces => put_name(alloc, text_at(node, DW_AT_name), target, pairs),
    }
}

/// Puts two names of a node last, those that there are and that aren't empty, and one that is twice there once.
fn put_names(
    alloc: Global,
    first: Option<&[u8]>,
    second: Option<&[u8]>,
    target: Target,
    pairs: &mut List<(Bytes, Target)>,
) -> Result<(), NoMemory>
    ensures { OnOk result (pairs.new ≡ pairs.old ++ map (λ name. (name, target)) (entered_names (option_to_list (option_copied first.entry) ++ option_to_list (option_copied second.entry)))) }
{
    put_name(alloc, first, target, pairs)?;
    if !are_one(first, second) {
        put_name(alloc, second, target, pairs)?;
    }
    Ok(())
}

/// Whether two names are there, and are one.
fn are_one(first: Option<&[u8]>, second: Option<&[u8]>) -> bool
    ensures { result ≡ option_map_or (λ a. option_map_or (bytes_eq a) (option_copied second.entry) false) (option_copied first.entry) false }
{
    match (first, second) {
        (Some(first), Some(second)) => first == second,
        _ => false,
    }
}

/// Puts a name of a node last, if it is there and isn't empty.
fn put_name(
    alloc: Global,
    name: Option<&[u8]>,
    target: Target,
    pairs: &mut List<(Bytes, Target)>,
) -> Result<(), NoMemory>
    ensures { OnOk result (pairs.new ≡ pairs.old ++ map (λ name. (name, target)) (entered_names (option_to_list (option_copied name.entry)))) }
{
    let Some(name) = name else {
        return Ok(());
    };
    if name.is_empty() {
        return Ok(());
    }
    pairs.push((Bytes::from_slice(alloc, name)?, target))?;
    Ok(())
}

/// Of each node whether it stands in a subprogram.
fn inside_row(alloc: Global, nodes: &[Node]) -> Result<Vec<bool>, NoMemory>
    ensures { IfOk result (λ row. row.items ≡ map (is_inside nodes.now) (range_with_len 0 (length nodes.now))) }
{
    let mut row = Vec::with_capacity(alloc, nodes.len())?;
    for k in 0..nodes.len() {
        row.push(stands_inside(nodes, &row, k))?;
    }
    Ok(row)
}

/// Whether a node stands in a subprogram, by what is told of the nodes before it.
fn stands_inside(nodes: &[Node], row: &[bool], k: usize) -> bool
    requires { row.now ≡ map (is_inside nodes.now) (range_with_len 0 k) }
    ensures { result ≡ is_inside nodes.now k }
{
    let Some(parent) = parent_of(nodes, k) else {
        return false;
    };
    let above = parent as usize;
    if is_subprogram(nodes, above) {
        return true;
    }
    if above >= k {
        return false;
    }
    row[above]
}

/// The parent of a node.
fn parent_of(nodes: &[Node], k: usize) -> Option<u32>
    ensures { result ≡ Entries.parent_of nodes.now k }
{
    match nodes.get(k) {
        Some(node) => node.parent,
        None => None,
    }
}

/// Whether a node is a subprogram.
fn is_subprogram(nodes: &[Node], k: usize) -> bool
    ensures { result ≡ option_map_or (λ node. node.tag == dw.DW_TAG_subprogram) (slice_get nodes.now k) false }
{
    match nodes.get(k) {
        Some(node) => node.tag == DW_TAG_subprogram,
        None => false,
    }
}
