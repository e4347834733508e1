//! What is written: units of nodes with their attributes, and frames.

use crate::address::Span;
use crate::frames::OutFrames;
use crate::lines::OutLines;
use crate::parts::ExprPart;
use ds_base::{Bytes, List, Part};

/// The debugging information of a linked program, in the order of the output.
#[derive(Drop)]
pub struct Graph {
    pub units: List<OutUnit>,
    pub frames: OutFrames,
}

/// An output unit.
#[derive(Drop)]
pub struct OutUnit {
    /// The version of DWARF in which it is written.
    pub version: u16,
    /// The unit's entries in preorder; the first is the root.
    pub nodes: List<Node>,
    /// Its line table, where the root has one.
    pub lines: Option<OutLines>,
    /// The addresses of its code in the linked program.
    pub ranges: List<Span>,
}

/// An output debugging information entry.
#[derive(Drop)]
pub struct Node {
    /// The number of the parent among the unit's nodes, counted from 0; none at the root.
    pub parent: Option<u32>,
    /// The `DW_TAG` number.
    pub tag: u16,
    pub attrs: List<OutAttr>,
}

/// An attribute of an output entry.
#[derive(Drop)]
pub struct OutAttr {
    /// The `DW_AT` number.
    pub name: u16,
    pub value: OutValue,
}

/// The value of an output attribute, by the class of its form (DWARF 5, section 7.5.5).
#[derive(Drop)]
pub enum OutValue {
    /// Class address: an address in the linked program.
    Address(u64),
    /// Class string: a text, without the zero byte that ends it.
    Text(Bytes),
    /// Classes constant and flag, up to 64 bits: the bits, and the `DW_FORM` number in which they are
    /// written. A constant with a sign is its two's complement in 64 bits.
    Number { form: u16, bits: u64 },
    /// A constant of 16 bytes, the lowest first; in units of version 5 alone.
    Wide(Bytes),
    /// Class block: the bytes behind the length, and the `DW_FORM` number in which they are written.
    Block { form: u16, bytes: Bytes },
    /// Class exprloc: the expression, part by part.
    Expr(List<ExprPart>),
    /// Class reference: the entry to which it leads.
    Ref(Target),
    /// Class rnglist: the addresses in the linked program.
    Ranges(List<Span>),
    /// Class loclist: the locations, item by item.
    Locations(List<OutLocation>),
    /// Class lineptr, at a unit's root: the unit's line table.
    Lines,
}

/// An entry to which a reference leads.
#[derive(Clone, Copy, Debug)]
pub struct Target {
    /// The number of its unit in the graph, counted from 0.
    pub unit: u32,
    /// Its number among the nodes of that unit, counted from 0.
    pub node: u32,
}

/// Where an object is found while the linked program runs in a span of addresses.
#[derive(Drop)]
pub struct OutLocation {
    pub span: Span,
    /// The expression, part by part.
    pub parts: List<ExprPart>,
}

/// A section as it is written.
#[derive(Drop)]
pub struct Written {
    pub part: Part,
    pub bytes: Bytes,
}
