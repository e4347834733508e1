//! A unit that stands in memory gives itself.

ghost use Rattle.std.specs.Prelude.{◌≡◌, ◌<◌, ◌++◌, ◌∷◌, [], length, map, slice_get, Some, OnOk};
ghost use Rattle.unit_source.specs.Given.{attr_given, value_given};

use crate::cow_list::CowList;
use crate::given::{OutAttrRef, OutValueRef};
use crate::source::{NodeHead, UnitSource};
use ds_base::NoMemory;
use dwarf_types::{Node, OutAttr, OutLines, OutUnit, OutValue, Span};
use std::alloc::Global;

impl UnitSource for OutUnit {
    ghost unit = { λ unit. unit };

    fn version(&self) -> u16 {
        self.version
    }

    fn len(&self) -> usize {
        self.nodes.len()
    }

    fn parent(&self, k: usize) -> Option<u32> {
        node_at(self, k).parent
    }

    fn node<'a>(
        &'a self,
        _alloc: Global,
        k: usize,
        attrs: &mut Vec<OutAttrRef<'a>>,
    ) -> Result<NodeHead, NoMemory> {
        let node = node_at(self, k);
        attrs.clear();
        lend_attrs(attrs, node.attrs.as_slice())?;
        Ok(NodeHead {
            parent: node.parent,
            tag: node.tag,
        })
    }

    fn lines(&self) -> Option<&OutLines> {
        self.lines.as_ref()
    }

    fn ranges(&self) -> &[Span] {
        self.ranges.as_slice()
    }
}

fn node_at(unit: &OutUnit, k: usize) -> &Node
    requires { k < length unit.now.nodes }
    ensures { slice_get unit.now.nodes k ≡ Some result.now }
{
    &unit.nodes.as_slice()[k]
}

/// Puts attributes last.
fn lend_attrs<'a>(lent: &mut Vec<OutAttrRef<'a>>, attrs: &'a [OutAttr]) -> Result<(), NoMemory>
    ensures { OnOk result (map attr_given lent.new.items ≡ map attr_given lent.old.items ++ attrs.now) }
{
    for attr in attrs {
        lend_attr(lent, attr)?;
    }
    Ok(())
}

/// Puts an attribute last.
fn lend_attr<'a>(lent: &mut Vec<OutAttrRef<'a>>, attr: &'a OutAttr) -> Result<(), NoMemory>
    ensures { OnOk result (map attr_given lent.new.items ≡ map attr_given lent.old.items ++ attr.now ∷ []) }
{
    lent.push(OutAttrRef {
        name: attr.name,
        value: lend_value(&attr.value),
    })?;
    Ok(())
}

fn lend_value(value: &OutValue) -> OutValueRef<'_>
    ensures { value_given result ≡ value.now }
{
    match value {
        OutValue::Address(address) => OutValueRef::Address(*address),
        OutValue::Text(text) => OutValueRef::Text(text.as_slice()),
        OutValue::Number { form, bits } => OutValueRef::Number {
            form: *form,
            bits: *bits,
        },
        OutValue::Wide(bytes) => OutValueRef::Wide(bytes.as_slice()),
        OutValue::Block { form, bytes } => OutValueRef::Block {
            form: *form,
            bytes: bytes.as_slice(),
        },
        OutValue::Expr(parts) => OutValueRef::Expr(CowList::Borrowed(parts.as_slice())),
        OutValue::Ref(target) => OutValueRef::Ref(*target),
        OutValue::Ranges(spans) => OutValueRef::Ranges(spans.as_slice()),
        OutValue::Locations(items) => OutValueRef::Locations(CowList::Borrowed(items.as_slice())),
        OutValue::Lines => OutValueRef::Lines,
    }
}
