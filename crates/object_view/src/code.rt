//! The code of subprograms in the linked program (DWARF 4, section 2.17).

ghost use Rattle.std.specs.Prelude.{◌≡◌, ◌<◌, ◌^◌, ◌++◌, length, map, IfOk, OnOk};
ghost use Rattle.std.specs.Option.{option_and_then};
ghost use Rattle.dwarf_types.specs.Moves.{spans_in, value_of};
ghost use Rattle.dwarf_types.specs.Seen.{value_seen};
ghost use Rattle.addr_map.specs.Sound.{IsSound};
ghost use Rattle.line_read.specs.Rising.{placed};
ghost use Rattle.object_view.specs.Code;

use addr_map::{AddrMap, pieces};
use ds_base::dwarf::{DW_AT_high_pc, DW_AT_low_pc, DW_AT_ranges, DW_FORM_sdata, DW_TAG_subprogram};
use ds_base::{List, NoMemory};
use dwarf_types::{Addr, CodeRange, Entries, EntryRef, Place, Span, ValueRef, is_flag};
use std::alloc::Global;

/// The pieces of the code of all subprograms, in the order of the entries.
pub(crate) fn code_of(
    alloc: Global,
    map: &AddrMap,
    entries: &Entries,
) -> Result<List<CodeRange>, NoMemory>
    requires map { IsSound map.now }
    requires few { length entries.now < 2 ^ 32 }
    ensures { IfOk result (λ code. code ≡ Code.code_of map.now entries.now) }
{
    let mut code = List::new(alloc);
    for i in 0..entries.len() {
        add_code(alloc, map, i as u32, &entries.entry(i), &mut code)?;
    }
    Ok(code)
}

/// Puts the pieces of the code of an entry last, where it is a subprogram. `number` is the entry's.
fn add_code(
    alloc: Global,
    map: &AddrMap,
    number: u32,
    entry: &EntryRef,
    code: &mut List<CodeRange>,
) -> Result<(), NoMemory>
    requires { IsSound map.now }
    ensures { OnOk result (code.new ≡ code.old ++ Code.code_ranges map.now (number, entry.now)) }
{
    if entry.tag() != DW_TAG_subprogram {
        return Ok(());
    }
    add_spans(number, ranges_pieces(entry), code)?;
    let pieces = low_high_pieces(alloc, map, entry)?;
    add_spans(number, pieces.as_slice(), code)?;
    Ok(())
}

/// Puts spans last, as code of the entry of this number.
fn add_spans(number: u32, spans: &[Span], code: &mut List<CodeRange>) -> Result<(), NoMemory>
    ensures { OnOk result (code.new ≡ code.old ++ map (λ span. record { entry = number; span = span }) spans.now) }
{
    for span in spans {
        code.push(CodeRange {
            entry: number,
            span: *span,
        })?;
    }
    Ok(())
}

/// The pieces of an entry's range list.
fn ranges_pieces<'a>(entry: &EntryRef<'a>) -> &'a [Span]
    ensures { result.now ≡ Code.ranges_pieces entry.now }
{
    match entry.find(DW_AT_ranges) {
        Some(attr) => spans_in(attr.value),
        None => &[],
    }
}

/// The pieces of a range list.
fn spans_in<'a>(value: ValueRef<'a>) -> &'a [Span]
    ensures { result.now ≡ spans_in (value_seen value.entry) }
{
    match value {
        ValueRef::Ranges(spans) => spans,
        _ => &[],
    }
}

/// The pieces from an entry's low_pc to its high_pc.
fn low_high_pieces(alloc: Global, map: &AddrMap, entry: &EntryRef) -> Result<List<Span>, NoMemory>
    requires { IsSound map.now }
    ensures { IfOk result (λ spans. spans ≡ Code.low_high_pieces map.now entry.now) }
{
    let Some(low) = low_of(entry) else {
        return Ok(List::new(alloc));
    };
    match end_of(entry, low) {
        Some(high) if low <= high => pieces(alloc, map, low, high),
        _ => Ok(List::new(alloc)),
    }
}

/// The address of the object that is an entry's low_pc.
fn low_of(entry: &EntryRef) -> Option<u64>
    ensures { result ≡ option_and_then Code.object_address (value_of DW_AT_low_pc entry.now) }
{
    object_address(&entry.find(DW_AT_low_pc)?.value)
}

/// Where the code ends by an entry's high_pc that begins at an address.
fn end_of(entry: &EntryRef, low: u64) -> Option<u64>
    ensures { result ≡ option_and_then (Code.end_from low) (value_of DW_AT_high_pc entry.now) }
{
    end_from(low, &entry.find(DW_AT_high_pc)?.value)
}

/// Where code ends that begins at an address: "the value may be an address, or a constant that is the length".
fn end_from(low: u64, value: &ValueRef<'_>) -> Option<u64>
    ensures { result ≡ Code.end_from low (value_seen value.now) }
{
    match value {
        ValueRef::Number { form, bits } => low.checked_add(length_of(*form, *bits)?),
        _ => object_address(value),
    }
}

/// The length that a constant of a form is. A flag is none, nor is a number below zero.
fn length_of(form: u16, bits: u64) -> Option<u64>
    ensures { result ≡ Code.length_of form bits }
{
    if is_flag(form) || form == DW_FORM_sdata && bits >= 1 << 63 {
        return None;
    }
    Some(bits)
}

/// The address of the object that a value is.
fn object_address(value: &ValueRef<'_>) -> Option<u64>
    ensures { result ≡ Code.object_address (value_seen value.now) }
{
    match value.place()?.at {
        Addr::Placed(at) => Some(at),
        Addr::Named { .. } | Addr::Fixed(_) => None,
    }
}
