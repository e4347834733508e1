//! What declares a node.

ghost use Rattle.std.specs.Prelude.{◌≡◌, ◌++◌, map, OnOk};
ghost use Rattle.dwarf_types.specs.Forms.{form_of};
ghost use Rattle.unit_source.specs.Given.{attr_given, value_given};
ghost use Rattle.abbrev_write.specs.Keys.{declared_by};
ghost use Rattle.abbrev_write.specs.Table.{declaring};

use crate::key::Key;
use ds_base::NoMemory;
use ds_base::dwarf::{
    DW_FORM_addr, DW_FORM_data16, DW_FORM_exprloc, DW_FORM_ref_addr, DW_FORM_ref4,
    DW_FORM_sec_offset, DW_FORM_strp,
};
use unit_source::{OutAttrRef, OutValueRef};

/// Makes the key of what declares a node of the unit of a number, in the place of what stood there.
pub(crate) fn make_key(
    key: &mut Key,
    number: u32,
    tag: u16,
    children: bool,
    attrs: &[OutAttrRef],
) -> Result<(), NoMemory>
    ensures { OnOk result (declared_by key.new ≡ declaring number tag children (map attr_given attrs.now)) }
{
    key.tag = tag;
    key.children = children;
    key.attributes.clear();
    add_pairs(&mut key.attributes, number, attrs)?;
    Ok(())
}

/// Puts the pairs of name and form last.
fn add_pairs(pairs: &mut Vec<(u16, u16)>, number: u32, attrs: &[OutAttrRef]) -> Result<(), NoMemory>
    ensures { OnOk result (pairs.new.items ≡ pairs.old.items ++ map (λ a. (a.name, form_of number a.value)) (map attr_given attrs.now)) }
{
    for attr in attrs {
        pairs.push((attr.name, form_in(number, &attr.value)))?;
    }
    Ok(())
}

/// The form of a value of the unit of a number.
fn form_in(number: u32, value: &OutValueRef) -> u16
    ensures { result ≡ form_of number (value_given value.now) }
{
    match value {
        OutValueRef::Address(_) => DW_FORM_addr,
        OutValueRef::Text(_) => DW_FORM_strp,
        OutValueRef::Number { form, .. } | OutValueRef::Block { form, .. } => *form,
        OutValueRef::Wide(_) => DW_FORM_data16,
        OutValueRef::Expr(_) => DW_FORM_exprloc,
        OutValueRef::Ref(target) if target.unit == number => DW_FORM_ref4,
        OutValueRef::Ref(_) => DW_FORM_ref_addr,
        OutValueRef::Ranges(_) | OutValueRef::Locations(_) | OutValueRef::Lines => {
            DW_FORM_sec_offset
        }
    }
}
