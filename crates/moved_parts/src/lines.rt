//! Line tables (DWARF 4, section 6.2).

ghost use Rattle.std.specs.Prelude.{◌≡◌, ◌<◌, ◌≤◌, [], ◌∷◌, ◌++◌, length, map, slice_get, Some, IfOk, IfSome, OnOk};
ghost use Rattle.std.specs.List.{All, AllPairs, filter_map, flat_map, position_or_len};
ghost use Rattle.std.specs.List.Sorted.{IsPartitionPoint, IsPermutation, IsSortedBy, IsStableBy};
ghost use Rattle.std.specs.Option.{option_and_then, option_copied, unwrap_or};
ghost use Rattle.addr_map.specs.Sound.{IsSound, IsSoundRange};
ghost use Rattle.dwarf_types.specs.declared.lines.RawSequence.{RawSequence as ARawSequence};
ghost use Rattle.line_read.specs.Rising.{DoesNotFall};
ghost use Rattle.moved_parts.specs.Lines.{end_by, linked_end, lines_moved, row_by, sequences_moved};
ghost use Rattle.moved_parts.specs.Parts.{IsPart, is_before, part_seen, parts_of};

use addr_map::{AddrMap, MapRange};
use ds_base::NoMemory;
use dwarf_types::{
    Addr, OutLines, RawLines, RawRow, RawSequences, Row, SequenceBuilder, Sequences,
};
use std::alloc::Global;

/// What a range holds of a sequence.
#[derive(Clone, Copy)]
struct SequencePart {
    range: MapRange,
    /// Which sequence of the table it is, counted from 0.
    sequence: usize,
    /// The first row that the range holds, counted from 0.
    first: usize,
    /// How many rows stand from there on before the first behind the range.
    count: usize,
    /// Where it ends in the linked program.
    end: u64,
}

/// The line table in the linked program: of each range of the map, in the order of linked addresses, and of each
/// sequence the rows that the range holds, as a sequence of its own where there are any.
///
/// It ends where the input's sequence does, if that end lies in the range, and else with the range. Directories and
/// files stay as they are.
pub fn move_lines(alloc: Global, map: &AddrMap, lines: RawLines) -> Result<OutLines, NoMemory>
    requires sound { IsSound map.now }
    requires rising { All DoesNotFall lines.sequences }
    ensures { IfOk result (λ out. out ≡ lines_moved map.now lines) }
{
    let sequences = move_sequences(alloc, map.ranges.as_slice(), &lines.sequences)?;
    Ok(OutLines {
        dirs: lines.dirs,
        files: lines.files,
        sequences,
    })
}

/// The sequences of the linked program.
fn move_sequences(
    alloc: Global,
    ranges: &[MapRange],
    sequences: &RawSequences,
) -> Result<Sequences, NoMemory>
    requires sound { All IsSoundRange ranges.now }
    requires apart { AllPairs (λ r later. r.end ≤ later.start) ranges.now }
    requires rising { All DoesNotFall sequences.now }
    ensures { IfOk result (λ moved. moved ≡ sequences_moved ranges.now sequences.now) }
{
    let mut parts = all_parts(alloc, ranges, sequences)?;
    sort_parts(&mut parts)?;
    put_parts(alloc, sequences, parts.as_slice())
}

/// The parts of all sequences, in the order of the table.
fn all_parts(
    alloc: Global,
    ranges: &[MapRange],
    sequences: &RawSequences,
) -> Result<Vec<SequencePart>, NoMemory>
    requires sound { All IsSoundRange ranges.now }
    requires apart { AllPairs (λ r later. r.end ≤ later.start) ranges.now }
    requires rising { All DoesNotFall sequences.now }
    ensures parts { IfOk result (λ parts. map (part_seen sequences.now) parts.items ≡ flat_map (parts_of ranges.now) sequences.now) }
    ensures sound { IfOk result (λ parts. All (IsPart sequences.now) parts.items) }
{
    let mut parts = Vec::new(alloc);
    for index in 0..sequences.len() {
        add_parts(ranges, sequences, index, &mut parts)?;
    }
    Ok(parts)
}

/// Puts the parts of a sequence last. Its addresses don't fall, so the ranges that hold some of its rows come in
/// their own order, each once.
fn add_parts(
    ranges: &[MapRange],
    sequences: &RawSequences,
    index: usize,
    parts: &mut Vec<SequencePart>,
) -> Result<(), NoMemory>
    requires sound { All IsSoundRange ranges.now }
    requires apart { AllPairs (λ r later. r.end ≤ later.start) ranges.now }
    requires rising { All DoesNotFall sequences.now }
    requires there { index < length sequences.now }
    requires sound_parts { All (IsPart sequences.now) parts.old.items }
    ensures parts { (s : ARawSequence) → slice_get sequences.now index ≡ Some s → OnOk result (map (part_seen sequences.now) parts.new.items ≡ map (part_seen sequences.now) parts.old.items ++ parts_of ranges.now s) }
    ensures sound { OnOk result (All (IsPart sequences.now) parts.new.items) }
{
    let sequence = sequences.sequence(index);
    let rows = sequence.rows;
    let mut next = 0;
    while next < rows.len() {
        let Some(range) = range_of(ranges, rows[next].at) else {
            next += 1;
            continue;
        };
        let rest = &rows[next..];
        let count = count_before_end(range, rest);
        parts.push(SequencePart {
            range: *range,
            sequence: index,
            first: next,
            count,
            end: end_in(range, sequence.end),
        })?;
        next += count;
    }
    Ok(())
}

/// The range that holds an address.
fn range_of(ranges: &[MapRange], at: Addr) -> Option<&MapRange>
    requires sound { All IsSoundRange ranges.now }
    requires apart { AllPairs (λ r later. r.end ≤ later.start) ranges.now }
    ensures found { option_copied result ≡ Rattle.moved_parts.specs.Parts.range_of ranges.now at }
    ensures sound { IfSome result (λ range. IsSoundRange range.now) }
{
    let Addr::Placed(address) = at else {
        return None;
    };
    let range = ranges.get(count_ended(ranges, address))?;
    if range.start <= address {
        Some(range)
    } else {
        None
    }
}

/// How many ranges end at an address or before it.
fn count_ended(ranges: &[MapRange], address: u64) -> usize
    requires sound { All IsSoundRange ranges.now }
    requires apart { AllPairs (λ r later. r.end ≤ later.start) ranges.now }
    ensures { IsPartitionPoint (λ r. r.end ≤ address) (λ r. address < r.end) ranges.now result }
{
    ranges.partition_point(|range| range.end <= address)
}

/// How many rows stand before the first whose address is behind the range.
fn count_before_end(range: &MapRange, rows: &[RawRow]) -> usize
    ensures count { result ≡ position_or_len (λ row. Rattle.moved_parts.specs.Parts.is_behind range.now row.at) rows.now }
    ensures within { result ≤ length rows.now }
{
    for (i, row) in rows.iter().enumerate() {
        if is_behind(range, row.at) {
            return i;
        }
    }
    rows.len()
}

/// Whether an address is behind those of a range.
fn is_behind(range: &MapRange, at: Addr) -> bool
    ensures { result ≡ Rattle.moved_parts.specs.Parts.is_behind range.now at }
{
    match at {
        Addr::Placed(address) => range.end <= address,
        Addr::Named { .. } | Addr::Fixed(_) => false,
    }
}

/// Where the rows of a sequence end that are in a range: where the sequence does, or else with the range.
fn end_in(range: &MapRange, end: Option<Addr>) -> u64
    requires { IsSoundRange range.now }
    ensures { result ≡ unwrap_or (option_and_then (end_by range.now) end) (linked_end range.now) }
{
    match end {
        Some(Addr::Placed(end)) if range.start < end && end <= range.end => {
            range.linked + (end - range.start)
        }
        _ => range.linked + (range.end - range.start),
    }
}

/// Puts parts in the order of the linked program, those of one range in the order of the table.
fn sort_parts(parts: &mut Vec<SequencePart>) -> Result<(), NoMemory>
    ensures sorted { OnOk result (IsSortedBy (λ p other. is_before p.range other.range) parts.new.items) }
    ensures stable { OnOk result (IsStableBy (λ p other. is_before p.range other.range) parts.old.items parts.new.items) }
    ensures same { IsPermutation parts.old.items parts.new.items }
{
    parts.sort_by_key(|part| (part.range.linked, part.range.start))?;
    Ok(())
}

/// The sequences that parts make, each of the rows that its range holds.
fn put_parts(
    alloc: Global,
    sequences: &RawSequences,
    parts: &[SequencePart],
) -> Result<Sequences, NoMemory>
    requires { All (IsPart sequences.now) parts.now }
    ensures { IfOk result (λ made. made ≡ map (λ part. (part_seen sequences.now part).sequence) parts.now) }
{
    let mut builder = SequenceBuilder::new(alloc);
    for part in parts {
        put_part(sequences, part, &mut builder)?;
    }
    Ok(builder.finish())
}

/// Puts the sequence of a part last.
fn put_part(
    sequences: &RawSequences,
    part: &SequencePart,
    builder: &mut SequenceBuilder,
) -> Result<(), NoMemory>
    requires sound { IsPart sequences.now part.now }
    requires none { builder.old.rows ≡ [] }
    ensures { OnOk result (builder.new ≡ record { ended = builder.old.ended ++ (part_seen sequences.now part.now).sequence ∷ []; rows = [] }) }
{
    let rest = &sequences.sequence(part.sequence).rows[part.first..];
    put_rows(&part.range, &rest[..part.count], builder)?;
    builder.close(part.end)?;
    Ok(())
}

/// Puts the rows that are in a range, moved.
fn put_rows(
    range: &MapRange,
    rows: &[RawRow],
    builder: &mut SequenceBuilder,
) -> Result<(), NoMemory>
    requires { IsSoundRange range.now }
    ensures { OnOk result (builder.new ≡ record builder.old { rows = builder.old.rows ++ filter_map (row_by range.now) rows.now }) }
{
    for row in rows {
        if let Some(row) = move_row(range, row) {
            builder.push(row)?;
        }
    }
    Ok(())
}

/// The row, moved, if its address is in the range.
fn move_row(range: &MapRange, row: &RawRow) -> Option<Row>
    requires { IsSoundRange range.now }
    ensures { result ≡ row_by range.now row.now }
{
    match row.at {
        Addr::Placed(address) if range.start <= address && address < range.end => Some(Row {
            address: range.linked + (address - range.start),
            ..row.row
        }),
        _ => None,
    }
}
