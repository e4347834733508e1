//! The addresses of a unit's code.

ghost use Rattle.std.specs.Prelude.{◌≡◌, ◌≤◌, ◌<◌, ℕ, true, false, nat_lt, None, Option, is_some, length, map, IfOk};
ghost use Rattle.std.specs.List.{All, filter_map};
ghost use Rattle.std.specs.List.Sorted.{IsNonDecreasingBy, IsPartitionPoint, IsPermutation, IsSorted};
ghost use Rattle.std.specs.Option.{option_map_or};
ghost use Rattle.clone_units.specs.Pieces.{IsOutside, is_marked, object_in, once_behind, pair_cmp, pair_in, same_pair, written_pair};
ghost use Rattle.dwarf_types.specs.declared.analysis.CodeRange.{CodeRange as Piece};
ghost use Rattle.dwarf_types.specs.LinkedGraph.{code_of_unit};
ghost use Rattle.dwarf_types.specs.Sound.{IsSound};

use crate::nodes::unit_of;
use ds_base::{List, NoMemory};
use dwarf_types::{Analysis, CodeRange, Span};
use std::alloc::Global;

/// The pieces of the code of unit `u`'s subprograms that are written, in order and each once.
pub(crate) fn ranges_of(
    alloc: Global,
    seen: &Analysis,
    plain: &[Option<u32>],
    u: u32,
) -> Result<List<Span>, NoMemory>
    requires sound { IsSound seen.now }
    requires unit { u < length seen.now.units }
    requires plain { length plain.now ≡ length seen.now.entries }
    ensures { IfOk result (λ spans. spans ≡ code_of_unit (object_in seen.now plain.now) u) }
{
    let mut pairs = pairs_of(alloc, seen, plain, u)?;
    sort_pairs(&mut pairs);
    let spans = distinct_spans(alloc, &pairs)?;
    Ok(spans)
}

/// Puts pairs in order: by the low end, and then by the high one.
fn sort_pairs(pairs: &mut Vec<(u64, u64)>)
    ensures same { IsPermutation pairs.old.items pairs.new.items }
    ensures order { IsSorted pair_cmp pairs.new.items }
{
    pairs.sort_unstable();
}

/// The pieces of unit `u`, as they stand.
fn pairs_of(
    alloc: Global,
    seen: &Analysis,
    plain: &[Option<u32>],
    u: u32,
) -> Result<Vec<(u64, u64)>, NoMemory>
    requires sound { IsSound seen.now }
    requires unit { u < length seen.now.units }
    requires plain { length plain.now ≡ length seen.now.entries }
    ensures { IfOk result (λ pairs. pairs.items ≡ filter_map (pair_in (object_in seen.now plain.now) u) seen.now.code) }
{
    let unit = unit_of(seen, u);
    let first = u64::from(unit.first);
    let end = first + u64::from(unit.count);
    let pieces = pieces_within(seen.code.as_slice(), first, end);
    let pairs = written_pairs(alloc, plain, pieces)?;
    Ok(pairs)
}

/// The pieces whose subprograms are written, as pairs.
fn written_pairs(
    alloc: Global,
    plain: &[Option<u32>],
    pieces: &[CodeRange],
) -> Result<Vec<(u64, u64)>, NoMemory>
    requires { All (λ piece. piece.entry < length plain.now) pieces.now }
    ensures { IfOk result (λ pairs. pairs.items ≡ filter_map (written_pair (map is_some plain.now)) pieces.now) }
{
    let mut pairs = Vec::new(alloc);
    for piece in pieces {
        if let Some(pair) = written_pair(plain, piece) {
            pairs.push(pair)?;
        }
    }
    Ok(pairs)
}

/// A piece, where its subprogram is written.
fn written_pair(plain: &[Option<u32>], piece: &CodeRange) -> Option<(u64, u64)>
    requires { piece.now.entry < length plain.now }
    ensures { result ≡ written_pair (map is_some plain.now) piece.now }
{
    if !is_written(plain, piece.entry) {
        return None;
    }
    Some((piece.span.low, piece.span.high))
}

/// Whether an entry has a node.
fn is_written(plain: &[Option<u32>], entry: u32) -> bool
    requires { entry < length plain.now }
    ensures { result ≡ is_marked (map is_some plain.now) entry }
{
    plain[entry as usize].is_some()
}

/// The pieces of subprograms whose numbers are `first` or more, and below `end`.
fn pieces_within(code: &[CodeRange], first: u64, end: u64) -> &[CodeRange]
    requires { IsNonDecreasingBy (λ piece. piece.entry) code.now }
    ensures only { All (λ piece. (first ≤ piece.entry) × (piece.entry < end)) result.now }
    ensures same { (f : Piece → Option (ℕ × ℕ)) → ((piece : Piece) → IsOutside first end piece → f piece ≡ None) → filter_map f result.now ≡ filter_map f code.now }
{
    let rest = &code[count_below(code, first)..];
    &rest[..count_below(rest, end)]
}

/// How many pieces are of subprograms whose numbers are below this one.
fn count_below(code: &[CodeRange], number: u64) -> usize
    requires { IsNonDecreasingBy (λ piece. piece.entry) code.now }
    ensures within { result ≤ length code.now }
    ensures parted { IsPartitionPoint (λ piece. nat_lt piece.entry number ≡ true) (λ piece. nat_lt piece.entry number ≡ false) code.now result }
{
    code.partition_point(|piece| u64::from(piece.entry) < number)
}

/// Pairs in order as spans, each once.
fn distinct_spans(alloc: Global, pairs: &[(u64, u64)]) -> Result<List<Span>, NoMemory>
    ensures { IfOk result (λ spans. spans ≡ once_behind None pairs.now) }
{
    let mut spans = List::new(alloc);
    let mut last = None;
    for pair in pairs {
        if !is_last(last, *pair) {
            spans.push(Span {
                low: pair.0,
                high: pair.1,
            })?;
            last = Some(*pair);
        }
    }
    Ok(spans)
}

/// Whether a pair is the one before it.
fn is_last(last: Option<(u64, u64)>, pair: (u64, u64)) -> bool
    ensures { result ≡ option_map_or (λ q. same_pair q pair) last false }
{
    match last {
        Some(other) => other.0 == pair.0 && other.1 == pair.1,
        None => false,
    }
}
