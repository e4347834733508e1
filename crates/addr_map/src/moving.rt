//! Where addresses and spans of an object went.

ghost use Rattle.std.specs.Prelude.{◌≡◌, ◌<◌, ◌≤◌, ◌==◌, ℕ, drop, length, IfOk, IfSome};
ghost use Rattle.std.specs.List.{All, AllPairs, filter_map, find};
ghost use Rattle.std.specs.List.Sorted.{IsPartitionPoint};
ghost use Rattle.std.specs.Option.{option_copied};
ghost use Rattle.addr_map.specs.Moved.{holds, piece};
ghost use Rattle.addr_map.specs.Sound.{IsSound, IsSoundRange};

use crate::map::{AddrMap, MapName, MapRange};
use ds_base::{List, NoMemory};
use dwarf_types::{Addr, Span};
use std::alloc::Global;

/// Where an address of the object went in the linked program: with the range that holds it, or behind a symbol that
/// the map has, modulo 2^64. It is `None` for all else.
pub fn moved(map: &AddrMap, at: &Addr) -> Option<u64>
    requires { IsSound map.now }
    ensures { result ≡ Rattle.addr_map.specs.Moved.moved map.now at.now }
{
    match *at {
        Addr::Placed(address) => {
            let range = range_at(map.ranges.as_slice(), address)?;
            Some(range.linked + (address - range.start))
        }
        Addr::Named { symbol, addend } => {
            let name = find_name(map.names.as_slice(), symbol)?;
            Some(name.linked.wrapping_add(addend))
        }
        Addr::Fixed(_) => None,
    }
}

/// Where an end went in the linked program: the address behind the last one of something, which goes with the range
/// that holds the one before it. It is `None` for all else.
pub fn moved_end(map: &AddrMap, at: &Addr) -> Option<u64>
    requires { IsSound map.now }
    ensures { result ≡ Rattle.addr_map.specs.Moved.moved_end map.now at.now }
{
    match *at {
        Addr::Placed(end) => {
            let last = end.checked_sub(1)?;
            let range = range_at(map.ranges.as_slice(), last)?;
            Some(range.linked + (end - range.start))
        }
        Addr::Named { .. } | Addr::Fixed(_) => None,
    }
}

/// Where the addresses from `low` up to `high` went, without `high`: the piece of each range that holds some of them,
/// in the order of the ranges.
pub fn pieces(alloc: Global, map: &AddrMap, low: u64, high: u64) -> Result<List<Span>, NoMemory>
    requires order { low ≤ high }
    requires sound { IsSound map.now }
    ensures { IfOk result (λ pieces. pieces ≡ Rattle.addr_map.specs.Moved.pieces map.now low high) }
{
    let ranges = map.ranges.as_slice();
    let first = ended(ranges, low);
    pieces_of(alloc, &ranges[first..], low, high)
}

/// How many ranges end at `low` or before it, and so hold nothing of a span from there.
fn ended(ranges: &[MapRange], low: u64) -> usize
    requires sound { All IsSoundRange ranges.now }
    requires apart { AllPairs (λ r later. r.end ≤ later.start) ranges.now }
    ensures within { result ≤ length ranges.now }
    ensures others { (high : ℕ) → filter_map (piece low high) (drop result ranges.now) ≡ filter_map (piece low high) ranges.now }
{
    ranges.partition_point(|range| range.end <= low)
}

/// The pieces of the ranges, up to the first that starts at `high` or behind it.
fn pieces_of(
    alloc: Global,
    ranges: &[MapRange],
    low: u64,
    high: u64,
) -> Result<List<Span>, NoMemory>
    requires sound { All IsSoundRange ranges.now }
    requires apart { AllPairs (λ r later. r.end ≤ later.start) ranges.now }
    ensures { IfOk result (λ pieces. pieces ≡ filter_map (piece low high) ranges.now) }
{
    let mut pieces = List::new(alloc);
    for range in ranges {
        if high <= range.start {
            return Ok(pieces);
        }
        if let Some(piece) = piece_in(range, low, high) {
            pieces.push(piece)?;
        }
    }
    Ok(pieces)
}

/// What a range holds of a span, moved, unless that is nothing.
fn piece_in(range: &MapRange, low: u64, high: u64) -> Option<Span>
    requires { IsSoundRange range.now }
    ensures { result ≡ piece low high range.now }
{
    let first = low.max(range.start);
    let end = high.min(range.end);
    if first < end {
        Some(Span {
            low: range.linked + (first - range.start),
            high: range.linked + (end - range.start),
        })
    } else {
        None
    }
}

/// The range that holds an address.
fn range_at(ranges: &[MapRange], at: u64) -> Option<&MapRange>
    requires sound { All IsSoundRange ranges.now }
    requires apart { AllPairs (λ r later. r.end ≤ later.start) ranges.now }
    ensures found { option_copied result ≡ find (holds at) ranges.now }
    ensures holds { IfSome result (λ range. (range.now.start ≤ at) × (at < range.now.end)) }
    ensures sound { IfSome result (λ range. IsSoundRange range.now) }
{
    let last = begun(ranges, at).checked_sub(1)?;
    let range = &ranges[last];
    if at < range.end { Some(range) } else { None }
}

/// How many ranges start at an address or before it.
fn begun(ranges: &[MapRange], at: u64) -> usize
    requires sound { All IsSoundRange ranges.now }
    requires apart { AllPairs (λ r later. r.end ≤ later.start) ranges.now }
    ensures within { result ≤ length ranges.now }
    ensures begun { IsPartitionPoint (λ r. r.start ≤ at) (λ r. at < r.start) ranges.now result }
{
    ranges.partition_point(|range| range.start <= at)
}

/// The name of a symbol, given by its index from 0.
fn find_name(names: &[MapName], symbol: u32) -> Option<&MapName>
    requires { AllPairs (λ n later. n.symbol < later.symbol) names.now }
    ensures { option_copied result ≡ find (λ n. n.symbol == symbol) names.now }
{
    match names.binary_search_by_key(&symbol, |name| name.symbol) {
        Ok(i) => Some(&names[i]),
        Err(_) => None,
    }
}
