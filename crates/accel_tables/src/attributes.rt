//! What the attributes of an output entry say. Of those of one name the first counts.

ghost use Rattle.std.specs.Prelude.{◌≡◌, ◌==◌, false, Bool, not};
ghost use Rattle.std.specs.Option.{option_copied, option_map_or};
ghost use Rattle.ds_base.specs.DwarfNumbers as dw;
ghost use Rattle.accel_tables.specs.EnteredNames;
ghost use Rattle.accel_tables.specs.EnteredNames.{is_expression, is_set, value_of};

use ds_base::dwarf::{DW_AT_declaration, DW_AT_location};
use dwarf_types::{Node, OutValue, Target};

/// The value of an attribute.
fn value_at(node: &Node, at: u16) -> Option<&OutValue>
    ensures { option_copied result ≡ value_of at node.now }
{
    for attr in node.attrs.as_slice() {
        if attr.name == at {
            return Some(&attr.value);
        }
    }
    None
}

/// Whether there is an attribute.
pub(crate) fn has(node: &Node, at: u16) -> bool
    ensures { result ≡ EnteredNames.has at node.now }
{
    value_at(node, at).is_some()
}

/// The text of an attribute, if it has one.
pub(crate) fn text_at(node: &Node, at: u16) -> Option<&[u8]>
    ensures { option_copied result ≡ EnteredNames.text_at at node.now }
{
    match value_at(node, at) {
        Some(OutValue::Text(text)) => Some(text.as_slice()),
        _ => None,
    }
}

/// Where an attribute leads, if it is a reference.
pub(crate) fn target_at(node: &Node, at: u16) -> Option<Target>
    ensures { result ≡ EnteredNames.target_at at node.now }
{
    match value_at(node, at) {
        Some(OutValue::Ref(target)) => Some(*target),
        _ => None,
    }
}

/// Whether there is a location, and it is an expression.
pub(crate) fn has_place(node: &Node) -> bool
    ensures { result ≡ option_map_or is_expression (value_of dw.DW_AT_location node.now) false }
{
    match value_at(node, DW_AT_location) {
        Some(OutValue::Expr(_)) => true,
        _ => false,
    }
}

/// Whether it is a declaration alone.
pub(crate) fn is_declared(node: &Node) -> bool
    ensures { result ≡ option_map_or is_set (value_of dw.DW_AT_declaration node.now) false }
{
    match value_at(node, DW_AT_declaration) {
        Some(OutValue::Number { bits, .. }) => *bits != 0,
        _ => false,
    }
}
