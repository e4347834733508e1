//! The functions of a generated unit, each with its variables.

ghost use Rattle.std.specs.Prelude.{◌≡◌, ◌<◌, ◌++◌, ◌∷◌, [], OnOk, IfOk};
ghost use Rattle.dwarf_types.specs.declared.parts.ExprPart.TheVariants as parts;
ghost use Rattle.sample_objects.specs.GeneratedUnit;
ghost use Rattle.sample_objects.specs.GeneratedUnit.{function, function_tree, variable};

use crate::attributes::{add_node, add_type, add_value, named};
use crate::texts::{
    FIRST_VARIABLE, FUNCTION, SECOND_VARIABLE, SEPARATOR, THIRD_VARIABLE, append_decimal,
};
use crate::unit::{FUNCTION_SIZE, function_node, structure_node};
use ds_base::dwarf::{
    DW_AT_high_pc, DW_AT_location, DW_AT_low_pc, DW_FORM_data4, DW_OP_fbreg, DW_TAG_subprogram,
    DW_TAG_variable,
};
use ds_base::{Bytes, List, NoMemory};
use dwarf_types::{ExprPart, Node, OutValue};
use std::alloc::Global;

/// Puts function `j` of object `i` last, with its variables.
pub(crate) fn add_function_tree(
    alloc: Global,
    nodes: &mut List<Node>,
    i: u32,
    j: u32,
) -> Result<(), NoMemory>
    requires { j < 100 }
    ensures { OnOk result (nodes.new ≡ nodes.old ++ function_tree i j) }
{
    add_function(alloc, nodes, i, j)?;
    add_variable(alloc, nodes, j, &FIRST_VARIABLE, 8)?;
    add_variable(alloc, nodes, j, &SECOND_VARIABLE, 16)?;
    add_variable(alloc, nodes, j, &THIRD_VARIABLE, 24)?;
    Ok(())
}

fn add_function(alloc: Global, nodes: &mut List<Node>, i: u32, j: u32) -> Result<(), NoMemory>
    requires { j < 100 }
    ensures { OnOk result (nodes.new ≡ nodes.old ++ function i j ∷ []) }
{
    let mut attrs = named(alloc, function_name(alloc, i, j)?)?;
    let low_pc = u64::from(FUNCTION_SIZE * j);
    add_value(&mut attrs, DW_AT_low_pc, OutValue::Address(low_pc))?;
    let length = OutValue::Number {
        form: DW_FORM_data4,
        bits: u64::from(FUNCTION_SIZE),
    };
    add_value(&mut attrs, DW_AT_high_pc, length)?;
    add_node(nodes, 0, DW_TAG_subprogram, attrs)
}

/// The name of function `j` of object `i`.
pub(crate) fn function_name(alloc: Global, i: u32, j: u32) -> Result<Bytes, NoMemory>
    ensures { IfOk result (λ name. name ≡ GeneratedUnit.function_name i j) }
{
    let mut name = Bytes::from_slice(alloc, &FUNCTION)?;
    append_decimal(alloc, &mut name, i)?;
    name.extend(&SEPARATOR)?;
    append_decimal(alloc, &mut name, j)?;
    Ok(name)
}

/// Puts a variable of function `j` last, which stands `offset` bytes from the frame's base.
fn add_variable(
    alloc: Global,
    nodes: &mut List<Node>,
    j: u32,
    name: &[u8],
    offset: u8,
) -> Result<(), NoMemory>
    requires { j < 100 }
    ensures { OnOk result (nodes.new ≡ nodes.old ++ variable j name.now offset ∷ []) }
{
    let mut attrs = named(alloc, Bytes::from_slice(alloc, name)?)?;
    add_type(&mut attrs, structure_node(j))?;
    let location = frame_offset(alloc, offset)?;
    add_value(&mut attrs, DW_AT_location, OutValue::Expr(location))?;
    add_node(nodes, function_node(j), DW_TAG_variable, attrs)
}

/// The location so many bytes from the frame's base: one operation, whose operand is a single LEB digit.
fn frame_offset(alloc: Global, offset: u8) -> Result<List<ExprPart>, NoMemory>
    ensures { IfOk result (λ expression. expression ≡ parts.Plain (DW_OP_fbreg ∷ offset ∷ []) ∷ []) }
{
    let operation = Bytes::from_slice(alloc, &[DW_OP_fbreg, offset])?;
    let mut expression = List::new(alloc);
    expression.push(ExprPart::Plain(operation))?;
    Ok(expression)
}
