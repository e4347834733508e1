//! Range lists and location lists (DWARF 4, sections 2.17.3 and 2.6.2; DWARF 5, sections 7.25, 7.28 and 7.29).

ghost use Rattle.std.specs.Prelude.{◌≡◌, ◌++◌, OnOk};
ghost use Rattle.ds_base.specs.DwarfNumbers.{DW_LLE_start_end, DW_RLE_start_end};
ghost use Rattle.dwarf_types.specs.Lists.{end_of_list, kind_bytes, location_bytes, location_list_bytes, range_bytes, range_list_bytes, size_bytes, span_bytes};
ghost use Rattle.patches.specs.Filling.{Filling, filled};
ghost use Rattle.unit_draft.specs.Based.{AppendsBased};

use crate::drafting::Scratch;
use crate::expression::write_expression;
use crate::numbers::ADDRESS_LEN;
use appending::append_u64;
use ds_base::dwarf::{DW_LLE_start_end, DW_RLE_end_of_list, DW_RLE_start_end, DWARF_5};
use ds_base::{Bytes, NoMemory};
use dwarf_types::{OutLocation, Span};
use patches::Buffer;

/// The bytes of a pair of addresses, which are zero at the end of a list of version 4.
const PAIR_LEN: usize = 2 * ADDRESS_LEN;

/// The bytes of the length of an expression in a location list of version 4 (DWARF 4, section 2.6.2).
const EXPRESSION_LENGTH_LEN: usize = 2;

// ---- range lists

/// Appends a range list, with its end.
pub(crate) fn append_range_list(
    out: &mut Bytes,
    version: u16,
    spans: &[Span],
) -> Result<(), NoMemory>
    ensures { OnOk result (out.new ≡ out.old ++ range_list_bytes version spans.now) }
{
    for span in spans {
        append_range(out, version, span)?;
    }
    append_range_end(out, version)?;
    Ok(())
}

fn append_range(out: &mut Bytes, version: u16, span: &Span) -> Result<(), NoMemory>
    ensures { OnOk result (out.new ≡ out.old ++ range_bytes version span.now) }
{
    append_range_kind(out, version)?;
    append_span(out, span)?;
    Ok(())
}

fn append_range_kind(out: &mut Bytes, version: u16) -> Result<(), NoMemory>
    ensures { OnOk result (out.new ≡ out.old ++ kind_bytes version DW_RLE_start_end) }
{
    if version == DWARF_5 {
        out.push(DW_RLE_start_end)?;
    }
    Ok(())
}

fn append_span(out: &mut Bytes, span: &Span) -> Result<(), NoMemory>
    ensures { OnOk result (out.new ≡ out.old ++ span_bytes span.now) }
{
    append_u64(out, span.low)?;
    append_u64(out, span.high)?;
    Ok(())
}

fn append_range_end(out: &mut Bytes, version: u16) -> Result<(), NoMemory>
    ensures { OnOk result (out.new ≡ out.old ++ end_of_list version) }
{
    if version == DWARF_5 {
        out.push(DW_RLE_end_of_list)?;
    } else {
        out.extend(&[0; PAIR_LEN])?;
    }
    Ok(())
}

// ---- location lists

/// Appends a location list, with its end.
pub(crate) fn append_location_list(
    out: &mut Buffer,
    scratch: &mut Scratch,
    version: u16,
    items: &[OutLocation],
) -> Result<(), NoMemory>
    ensures { OnOk result (AppendsBased out.old out.new (λ place. location_list_bytes version place items.now)) }
{
    for item in items {
        append_location(out, scratch, version, item)?;
    }
    append_location_end(out, version)?;
    Ok(())
}

fn append_location(
    out: &mut Buffer,
    scratch: &mut Scratch,
    version: u16,
    item: &OutLocation,
) -> Result<(), NoMemory>
    ensures { OnOk result (AppendsBased out.old out.new (λ place. location_bytes version place item.now)) }
{
    write_expression(scratch, item.parts.as_slice())?;
    append_location_kind(out, version)?;
    out.extend_lowest(item.span.low, ADDRESS_LEN)?;
    out.extend_lowest(item.span.high, ADDRESS_LEN)?;
    append_size(out, version, scratch.expression.len() as u64)?;
    out.append(&scratch.expression)?;
    Ok(())
}

fn append_location_kind(out: &mut Buffer, version: u16) -> Result<(), NoMemory>
    ensures { OnOk result ((f : Filling) → filled out.new f ≡ filled out.old f ++ kind_bytes version DW_LLE_start_end) }
{
    if version == DWARF_5 {
        out.push(DW_LLE_start_end)?;
    }
    Ok(())
}

/// The length of an expression.
fn append_size(out: &mut Buffer, version: u16, len: u64) -> Result<(), NoMemory>
    ensures { OnOk result ((f : Filling) → filled out.new f ≡ filled out.old f ++ size_bytes version len) }
{
    if version == DWARF_5 {
        out.extend_uleb(len)?;
    } else {
        out.extend_lowest(len, EXPRESSION_LENGTH_LEN)?;
    }
    Ok(())
}

fn append_location_end(out: &mut Buffer, version: u16) -> Result<(), NoMemory>
    ensures { OnOk result ((f : Filling) → filled out.new f ≡ filled out.old f ++ end_of_list version) }
{
    if version == DWARF_5 {
        out.push(DW_RLE_end_of_list)?;
    } else {
        out.extend(&[0; PAIR_LEN])?;
    }
    Ok(())
}
