//! What an entry says of itself that naming asks for.

ghost use Rattle.std.specs.Prelude.{◌≡◌, ◌<◌, ◌==◌, false, Some, None, length, slice_get, if◌then◌else◌};
ghost use Rattle.std.specs.List.{list_any};
ghost use Rattle.std.specs.Option.{option_and_then, option_map, option_map_or};
ghost use Rattle.dwarf_types.specs.declared.entry.Attr.{Attr as AnAttr};
ghost use Rattle.dwarf_types.specs.Moves.{value_of};
ghost use Rattle.dwarf_types.specs.Seen.{inner_seen, op_seen, value_seen};
ghost use Rattle.type_names.specs.Entries.{is_declaration, is_set, has_field, holds, inner_is_tied, is_field, is_made_up, is_named_type, is_template_parameter, is_tied, is_type, linkage_of, name_of, op_is_tied, text_in};

use ds_base::dwarf::{
    DW_AT_declaration, DW_AT_linkage_name, DW_AT_name, DW_TAG_GNU_template_parameter_pack,
    DW_TAG_GNU_template_template_param, DW_TAG_base_type, DW_TAG_class_type,
    DW_TAG_enumeration_type, DW_TAG_structure_type, DW_TAG_template_type_parameter,
    DW_TAG_template_value_parameter, DW_TAG_typedef, DW_TAG_union_type,
};
use dwarf_types::{EntryRef, InnerOpRef, InnerOpsRef, OpRef, OpsRef, ValueRef};
use memchr::memchr;
use memchr::memmem::find;

/// The value of the entry's first attribute of a name.
pub(crate) fn value_of<'a>(entry: &EntryRef<'a>, name: u16) -> Option<ValueRef<'a>>
    ensures { option_map value_seen result ≡ value_of name entry.now }
{
    match entry.find(name) {
        Some(attr) => Some(attr.value),
        None => None,
    }
}

/// A text that is not empty.
fn text_in(value: ValueRef<'_>) -> Option<&[u8]>
    ensures { option_map (λ text. text.now) result ≡ text_in (value_seen value.entry) }
{
    match value {
        ValueRef::Text(text) => some_text(text),
        _ => None,
    }
}

/// The text, where it is not empty.
fn some_text(text: &[u8]) -> Option<&[u8]>
    ensures { option_map (λ text. text.now) result ≡ if length text.now == 0 then None else Some text.now }
{
    if text.is_empty() { None } else { Some(text) }
}

/// The entry's name, where it is a text that is not empty.
pub fn name_of<'a>(entry: &EntryRef<'a>) -> Option<&'a [u8]>
    ensures { option_map (λ text. text.now) result ≡ name_of entry.now }
{
    match value_of(entry, DW_AT_name) {
        Some(value) => text_in(value),
        None => None,
    }
}

/// The entry's linkage name, where it is a text that is not empty.
pub fn linkage_of<'a>(entry: &EntryRef<'a>) -> Option<&'a [u8]>
    ensures { option_map (λ text. text.now) result ≡ linkage_of entry.now }
{
    match value_of(entry, DW_AT_linkage_name) {
        Some(value) => text_in(value),
        None => None,
    }
}

/// Whether the tag is that of a type with a name of its own.
pub fn is_type(tag: u16) -> bool
    ensures { result ≡ is_type tag }
{
    matches!(
        tag,
        DW_TAG_class_type
            | DW_TAG_structure_type
            | DW_TAG_union_type
            | DW_TAG_enumeration_type
            | DW_TAG_typedef
    )
}

/// Whether an entry is a type with a name.
pub(crate) fn is_named_type(entry: &EntryRef) -> bool
    ensures { result ≡ is_named_type entry.now }
{
    is_type(entry.tag()) && name_of(entry).is_some()
}

/// Whether the tag is that of a parameter of a template.
pub(crate) fn is_template_parameter(tag: u16) -> bool
    ensures { result ≡ is_template_parameter tag }
{
    matches!(
        tag,
        DW_TAG_template_type_parameter
            | DW_TAG_template_value_parameter
            | DW_TAG_GNU_template_template_param
            | DW_TAG_GNU_template_parameter_pack
    )
}

/// Whether a name stands for something without a name.
#[tactic(auto, unfolding(crate::specs::Entries::is_made_up))]
pub(crate) fn is_made_up(name: &[u8]) -> bool
    ensures { result ≡ is_made_up name.now }
{
    has_parenthesis(name) && (holds(b"(anonymous ", name) || holds(b"(lambda at ", name))
}

/// Whether a text has an opening parenthesis.
fn has_parenthesis(text: &[u8]) -> bool
    ensures { result ≡ list_any (λ b. b == 40) text.now }
{
    memchr(b'(', text).is_some()
}

/// Whether a text holds a part, which is not empty.
pub(crate) fn holds(part: &[u8], text: &[u8]) -> bool
    requires { 0 < length part.now }
    ensures { result ≡ holds part.now text.now }
{
    find(text, part).is_some()
}

/// Whether an entry is a base type, or is tied to its unit by an attribute.
pub(crate) fn is_tied(entry: &EntryRef) -> bool
    ensures { result ≡ is_tied entry.now }
{
    entry.tag() == DW_TAG_base_type || has_field(entry)
}

/// Whether an entry has an address field, a section offset or a base type operand.
pub(crate) fn has_field(entry: &EntryRef) -> bool
    ensures { result ≡ has_field entry.now }
{
    for j in 0..entry.len() {
        if is_field_at(entry, j) {
            return true;
        }
    }
    false
}

/// Whether the value of the attribute at a place is a field. A text or a number is none, and is not looked at.
fn is_field_at(entry: &EntryRef, j: usize) -> bool
    requires { j < length entry.now.attrs }
    ensures { (a : AnAttr) → slice_get entry.now.attrs j ≡ Some a → result ≡ is_field a.value }
{
    if entry.is_plain(j) {
        return false;
    }
    is_field(&entry.attr(j).value)
}

/// Whether a value is an address, a section offset, or an expression with an address field or a base type operand.
fn is_field(value: &ValueRef) -> bool
    ensures { result ≡ is_field (value_seen value.now) }
{
    match value {
        ValueRef::Address(_) => true,
        ValueRef::Ranges(_) => true,
        ValueRef::Locations(_) => true,
        ValueRef::Lines => true,
        ValueRef::Offset(_) => true,
        ValueRef::Expr(ops) => are_tied(ops),
        _ => false,
    }
}

/// Whether an operation has an address field or a base type operand.
fn are_tied(ops: &OpsRef) -> bool
    ensures { result ≡ list_any op_is_tied ops.now }
{
    for k in 0..ops.len() {
        if op_is_tied(&ops.op(k)) {
            return true;
        }
    }
    false
}

/// Whether an operation, or one inside it, has an address field or a base type operand.
fn op_is_tied(op: &OpRef) -> bool
    ensures { result ≡ op_is_tied (op_seen op.now) }
{
    op.address.is_some() || op.base.is_some() || are_inner_tied(&op.inner)
}

/// Whether an operation inside an operation has an address field or a base type operand.
fn are_inner_tied(inner: &InnerOpsRef) -> bool
    ensures { result ≡ list_any inner_is_tied inner.now }
{
    for k in 0..inner.len() {
        if inner_is_tied(&inner.op(k)) {
            return true;
        }
    }
    false
}

/// Whether an operation inside an operation has an address field or a base type operand.
fn inner_is_tied(op: &InnerOpRef) -> bool
    ensures { result ≡ inner_is_tied (inner_seen op.now) }
{
    op.address.is_some() || op.base.is_some()
}

/// Whether an entry is a declaration of a type, as its flag says.
pub fn is_declaration(entry: &EntryRef) -> bool
    ensures { result ≡ is_declaration entry.now }
{
    is_type(entry.tag()) && is_declared(entry)
}

/// Whether the declaration flag of an entry is set.
fn is_declared(entry: &EntryRef) -> bool
    ensures { result ≡ option_map_or is_set (value_of DW_AT_declaration entry.now) false }
{
    match value_of(entry, DW_AT_declaration) {
        Some(value) => is_set(&value),
        None => false,
    }
}

/// Whether a value is a number other than 0.
fn is_set(value: &ValueRef) -> bool
    ensures { result ≡ is_set (value_seen value.now) }
{
    match value {
        ValueRef::Number { bits, .. } => *bits != 0,
        _ => false,
    }
}
