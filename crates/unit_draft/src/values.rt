//! Values of attributes (DWARF 4, section 7.5.4).

ghost use Rattle.std.specs.Prelude.{OnOk, map};
ghost use Rattle.dwarf_types.specs.declared.graph.OutValue.TheVariants as out_values;
ghost use Rattle.unit_source.specs.Given.{attr_given, value_given};
ghost use Rattle.unit_draft.specs.Appends.{AppendsValue, AppendsValues};

use crate::drafting::Drafting;
use crate::expression::write_expression;
use crate::lists::{append_location_list, append_range_list};
use crate::numbers::{ADDRESS_LEN, append_block, append_number};
use ds_base::NoMemory;
use dwarf_types::{ExprPart, OutLocation, Span, Target};
use patches::{Outer, Own};
use unit_source::{OutAttrRef, OutValueRef};

/// Appends the values of an entry of the unit of a number and a version.
pub(crate) fn append_values<'a>(
    drafting: &mut Drafting<'a>,
    number: u32,
    version: u16,
    attrs: &[OutAttrRef<'a>],
) -> Result<(), NoMemory>
    ensures { OnOk result (AppendsValues number version drafting.old drafting.new (map attr_given attrs.now)) }
{
    for attr in attrs {
        append_value(drafting, number, version, &attr.value)?;
    }
    Ok(())
}

fn append_value<'a>(
    drafting: &mut Drafting<'a>,
    number: u32,
    version: u16,
    value: &OutValueRef<'a>,
) -> Result<(), NoMemory>
    ensures { OnOk result (AppendsValue number version drafting.old drafting.new (value_given value.now)) }
{
    match value {
        OutValueRef::Address(address) => drafting.info.extend_lowest(*address, ADDRESS_LEN),
        OutValueRef::Text(text) => append_text(drafting, number, version, text),
        OutValueRef::Number { form, bits } => append_number(&mut drafting.info, *form, *bits),
        OutValueRef::Wide(bytes) => drafting.info.extend(bytes),
        OutValueRef::Block { form, bytes } => append_block(&mut drafting.info, *form, bytes),
        OutValueRef::Expr(parts) => append_expr(drafting, number, version, parts.as_slice()),
        OutValueRef::Ref(target) => append_ref(drafting, number, version, *target),
        OutValueRef::Ranges(spans) => append_ranges(drafting, number, version, spans),
        OutValueRef::Locations(items) => {
            append_locations(drafting, number, version, items.as_slice())
        }
        OutValueRef::Lines => drafting.info.leave(Outer::Lines),
    }
}

fn append_text<'a>(
    drafting: &mut Drafting<'a>,
    number: u32,
    version: u16,
    text: &'a [u8],
) -> Result<(), NoMemory>
    ensures { OnOk result (AppendsValue number version drafting.old drafting.new (out_values.Text text.now)) }
{
    let i = drafting.names.number_of(text)?;
    drafting.info.leave(Outer::Text(i))?;
    Ok(())
}

fn append_ref(
    drafting: &mut Drafting,
    number: u32,
    version: u16,
    target: Target,
) -> Result<(), NoMemory>
    ensures { OnOk result (AppendsValue number version drafting.old drafting.new (out_values.Ref target)) }
{
    if target.unit == number {
        drafting.info.leave_own(Own::Node(target.node))?;
    } else {
        drafting.info.leave(Outer::Entry(target))?;
    }
    Ok(())
}

fn append_ranges(
    drafting: &mut Drafting,
    number: u32,
    version: u16,
    spans: &[Span],
) -> Result<(), NoMemory>
    ensures { OnOk result (AppendsValue number version drafting.old drafting.new (out_values.Ranges spans.now)) }
{
    let offset = drafting.ranges.len();
    append_range_list(&mut drafting.ranges, version, spans)?;
    drafting.info.leave(Outer::Ranges(offset))?;
    Ok(())
}

fn append_expr(
    drafting: &mut Drafting,
    number: u32,
    version: u16,
    parts: &[ExprPart],
) -> Result<(), NoMemory>
    ensures { OnOk result (AppendsValue number version drafting.old drafting.new (out_values.Expr parts.now)) }
{
    write_expression(&mut drafting.scratch, parts)?;
    drafting.info.append_prefixed(&drafting.scratch.expression)?;
    Ok(())
}

fn append_locations(
    drafting: &mut Drafting,
    number: u32,
    version: u16,
    items: &[OutLocation],
) -> Result<(), NoMemory>
    ensures { OnOk result (AppendsValue number version drafting.old drafting.new (out_values.Locations items.now)) }
{
    let offset = drafting.locations.len();
    append_location_list(
        &mut drafting.locations,
        &mut drafting.scratch,
        version,
        items,
    )?;
    drafting.info.leave(Outer::Locations(offset))?;
    Ok(())
}
