//! The addresses of units' code: `__debug_aranges` (DWARF 4, section 6.1.2).

ghost use Rattle.std.specs.Prelude.{◌≡◌, ◌++◌, ◌∷◌, OnOk, replicate};
ghost use Rattle.std.specs.List.{flat_map};
ghost use Rattle.byteorder.specs.Endian.{little_bytes};
ghost use Rattle.dwarf_types.specs.Aranges.{arange_bytes, aranges_bytes, set_bytes};

use appending::{append_u16, append_u32, append_u64, close_length, open_length};
use ds_base::dwarf::ADDRESS_SIZE;
use ds_base::{Bytes, NoMemory};
use dwarf_types::Span;

/// The version of a set, which is not that of the unit.
const SET_VERSION: u16 = 2;

/// The bytes of a pair of addresses, which are zero at the end of a set.
const PAIR_LEN: usize = 2 * ADDRESS_SIZE as usize;

/// Puts the addresses of a unit's code last; nothing where it has none. `start` is the place of the unit's header.
pub(crate) fn append_aranges(out: &mut Bytes, start: u32, spans: &[Span]) -> Result<(), NoMemory>
    ensures { OnOk result (out.new ≡ out.old ++ aranges_bytes start spans.now) }
{
    if spans.is_empty() {
        return Ok(());
    }
    append_set(out, start, spans)?;
    Ok(())
}

/// Puts a set last: its header, the ranges, and two zeros.
fn append_set(out: &mut Bytes, start: u32, spans: &[Span]) -> Result<(), NoMemory>
    ensures { OnOk result (out.new ≡ out.old ++ set_bytes start spans.now) }
{
    let unit_length = open_length(out)?;
    append_behind_length(out, start, spans)?;
    close_length(out, unit_length);
    Ok(())
}

/// Puts last what the length of a set counts.
fn append_behind_length(out: &mut Bytes, start: u32, spans: &[Span]) -> Result<(), NoMemory>
    ensures { OnOk result (out.new ≡ out.old ++ (little_bytes 2 2 ++ (little_bytes 4 start ++ (8 ∷ 0 ∷ (replicate 4 0 ++ (flat_map arange_bytes spans.now ++ replicate 16 0)))))) }
{
    append_u16(out, SET_VERSION)?;
    append_u32(out, start)?;
    // address_size, segment_size, and four bytes up to a multiple of 16
    out.extend(&[ADDRESS_SIZE, 0, 0, 0, 0, 0])?;
    append_spans(out, spans)?;
    out.extend(&[0; PAIR_LEN])?;
    Ok(())
}

/// Puts the ranges of a set last.
fn append_spans(out: &mut Bytes, spans: &[Span]) -> Result<(), NoMemory>
    ensures { OnOk result (out.new ≡ out.old ++ flat_map arange_bytes spans.now) }
{
    for span in spans {
        append_span(out, span)?;
    }
    Ok(())
}

/// Puts a range last: its first address, and how many bytes it has.
fn append_span(out: &mut Bytes, span: &Span) -> Result<(), NoMemory>
    ensures { OnOk result (out.new ≡ out.old ++ arange_bytes span.now) }
{
    append_u64(out, span.low)?;
    append_u64(out, span.high.saturating_sub(span.low))?;
    Ok(())
}
