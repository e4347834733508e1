//! Attributes and nodes of the generated units, put one behind the other.

ghost use Rattle.std.specs.Prelude.{◌≡◌, ◌++◌, ◌∷◌, [], OnOk, IfOk, Some};
ghost use Rattle.dwarf_types.specs.declared.graph.OutValue.TheVariants as values;
ghost use Rattle.sample_objects.specs.GeneratedUnit.{constant, flag, has_type, names, with};

use ds_base::dwarf::{DW_AT_name, DW_AT_type, DW_FORM_data1, DW_FORM_flag_present};
use ds_base::{Bytes, List, NoMemory};
use dwarf_types::{Node, OutAttr, OutValue, Target};
use std::alloc::Global;

/// Attributes of which the first is a name.
pub(crate) fn named(alloc: Global, name: Bytes) -> Result<List<OutAttr>, NoMemory>
    ensures { IfOk result (λ attrs. attrs ≡ names name ∷ []) }
{
    let mut attrs = List::new(alloc);
    add_value(&mut attrs, DW_AT_name, OutValue::Text(name))?;
    Ok(attrs)
}

/// Puts an attribute last.
pub(crate) fn add_value(
    attrs: &mut List<OutAttr>,
    name: u16,
    value: OutValue,
) -> Result<(), NoMemory>
    ensures { OnOk result (attrs.new ≡ attrs.old ++ with name value ∷ []) }
{
    attrs.push(OutAttr { name, value })?;
    Ok(())
}

/// Puts a type last: a node of the unit.
pub(crate) fn add_type(attrs: &mut List<OutAttr>, node: u32) -> Result<(), NoMemory>
    ensures { OnOk result (attrs.new ≡ attrs.old ++ has_type node ∷ []) }
{
    add_value(attrs, DW_AT_type, OutValue::Ref(Target { unit: 0, node }))
}

/// Puts a constant of one byte last.
pub(crate) fn add_constant(attrs: &mut List<OutAttr>, name: u16, n: u32) -> Result<(), NoMemory>
    ensures { OnOk result (attrs.new ≡ attrs.old ++ constant name n ∷ []) }
{
    let value = OutValue::Number {
        form: DW_FORM_data1,
        bits: u64::from(n),
    };
    add_value(attrs, name, value)
}

/// Puts a flag last that is only there.
pub(crate) fn add_flag(attrs: &mut List<OutAttr>, name: u16) -> Result<(), NoMemory>
    ensures { OnOk result (attrs.new ≡ attrs.old ++ flag name ∷ []) }
{
    let value = OutValue::Number {
        form: DW_FORM_flag_present,
        bits: 1,
    };
    add_value(attrs, name, value)
}

/// Puts a node last that has a parent.
pub(crate) fn add_node(
    nodes: &mut List<Node>,
    parent: u32,
    tag: u16,
    attrs: List<OutAttr>,
) -> Result<(), NoMemory>
    ensures { OnOk result (nodes.new ≡ nodes.old ++ record { parent = Some parent; tag = tag; attrs = attrs } ∷ []) }
{
    nodes.push(Node {
        parent: Some(parent),
        tag,
        attrs,
    })?;
    Ok(())
}
